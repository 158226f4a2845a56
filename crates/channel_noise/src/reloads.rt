// What the noise timer reloads to, for each byte of FF22: the list that is printed and plays, and the rule that it equals.
ghost use Rattle.std.specs.Prelude.{◌≡◌, ◌≤◌, ◌*◌, ◌%◌, ◌^◌};
ghost use Rattle.channel_noise.specs.Noise.{divisor_of, reload_at};
ghost use Rattle.channel_noise.specs.Reloads.{reload_list};

// Each number with its byte beside it. From one step of the noise to the next it takes one working clock more than the number.
static RELOADS: [u16; 256] = [
    2, // 00
    4, // 01
    8, // 02
    12, // 03
    16, // 04
    20, // 05
    24, // 06
    28, // 07
    2, // 08
    4, // 09
    8, // 0A
    12, // 0B
    16, // 0C
    20, // 0D
    24, // 0E
    28, // 0F
    4, // 10
    8, // 11
    16, // 12
    24, // 13
    32, // 14
    40, // 15
    48, // 16
    56, // 17
    4, // 18
    8, // 19
    16, // 1A
    24, // 1B
    32, // 1C
    40, // 1D
    48, // 1E
    56, // 1F
    8, // 20
    16, // 21
    32, // 22
    48, // 23
    64, // 24
    80, // 25
    96, // 26
    112, // 27
    8, // 28
    16, // 29
    32, // 2A
    48, // 2B
    64, // 2C
    80, // 2D
    96, // 2E
    112, // 2F
    16, // 30
    32, // 31
    64, // 32
    96, // 33
    128, // 34
    160, // 35
    192, // 36
    224, // 37
    16, // 38
    32, // 39
    64, // 3A
    96, // 3B
    128, // 3C
    160, // 3D
    192, // 3E
    224, // 3F
    32, // 40
    64, // 41
    128, // 42
    192, // 43
    256, // 44
    320, // 45
    384, // 46
    448, // 47
    32, // 48
    64, // 49
    128, // 4A
    192, // 4B
    256, // 4C
    320, // 4D
    384, // 4E
    448, // 4F
    64, // 50
    128, // 51
    256, // 52
    384, // 53
    512, // 54
    640, // 55
    768, // 56
    896, // 57
    64, // 58
    128, // 59
    256, // 5A
    384, // 5B
    512, // 5C
    640, // 5D
    768, // 5E
    896, // 5F
    128, // 60
    256, // 61
    512, // 62
    768, // 63
    1024, // 64
    1280, // 65
    1536, // 66
    1792, // 67
    128, // 68
    256, // 69
    512, // 6A
    768, // 6B
    1024, // 6C
    1280, // 6D
    1536, // 6E
    1792, // 6F
    256, // 70
    512, // 71
    1024, // 72
    1536, // 73
    2048, // 74
    2560, // 75
    3072, // 76
    3584, // 77
    256, // 78
    512, // 79
    1024, // 7A
    1536, // 7B
    2048, // 7C
    2560, // 7D
    3072, // 7E
    3584, // 7F
    512, // 80
    1024, // 81
    2048, // 82
    3072, // 83
    4096, // 84
    5120, // 85
    6144, // 86
    7168, // 87
    512, // 88
    1024, // 89
    2048, // 8A
    3072, // 8B
    4096, // 8C
    5120, // 8D
    6144, // 8E
    7168, // 8F
    1024, // 90
    2048, // 91
    4096, // 92
    6144, // 93
    8192, // 94
    10240, // 95
    12288, // 96
    14336, // 97
    1024, // 98
    2048, // 99
    4096, // 9A
    6144, // 9B
    8192, // 9C
    10240, // 9D
    12288, // 9E
    14336, // 9F
    2048, // A0
    4096, // A1
    8192, // A2
    12288, // A3
    0, // A4
    4096, // A5
    8192, // A6
    12288, // A7
    2048, // A8
    4096, // A9
    8192, // AA
    12288, // AB
    0, // AC
    4096, // AD
    8192, // AE
    12288, // AF
    4096, // B0
    8192, // B1
    0, // B2
    8192, // B3
    0, // B4
    8192, // B5
    0, // B6
    8192, // B7
    4096, // B8
    8192, // B9
    0, // BA
    8192, // BB
    0, // BC
    8192, // BD
    0, // BE
    8192, // BF
    8192, // C0
    0, // C1
    0, // C2
    0, // C3
    0, // C4
    0, // C5
    0, // C6
    0, // C7
    8192, // C8
    0, // C9
    0, // CA
    0, // CB
    0, // CC
    0, // CD
    0, // CE
    0, // CF
    0, // D0
    0, // D1
    0, // D2
    0, // D3
    0, // D4
    0, // D5
    0, // D6
    0, // D7
    0, // D8
    0, // D9
    0, // DA
    0, // DB
    0, // DC
    0, // DD
    0, // DE
    0, // DF
    0, // E0
    0, // E1
    0, // E2
    0, // E3
    0, // E4
    0, // E5
    0, // E6
    0, // E7
    0, // E8
    0, // E9
    0, // EA
    0, // EB
    0, // EC
    0, // ED
    0, // EE
    0, // EF
    0, // F0
    0, // F1
    0, // F2
    0, // F3
    0, // F4
    0, // F5
    0, // F6
    0, // F7
    0, // F8
    0, // F9
    0, // FA
    0, // FB
    0, // FC
    0, // FD
    0, // FE
    0, // FF
];

// The whole list.
pub fn reloads() -> [u16; 256]
    ensures { result ≡ reload_list }
{
    RELOADS
}

// The number at a byte.
pub fn reload_at(ff22: u8) -> u16
    ensures { result ≡ reload_at ff22 }
{
    RELOADS[ff22 as usize]
}

// The divisor shifted left; what runs past the sixteenth bit is lost.
pub fn shift_left(divisor: u16, shift: u8) -> u16
    requires { shift ≤ 15 }
    ensures { result ≡ (divisor * 2 ^ shift) % 65536 }
{
    divisor << shift
}

// The divisor of a divisor code.
fn base_divisor(code: u8) -> u16
    requires { code ≤ 7 }
    ensures { result ≡ divisor_of code }
{
    if code == 0 { 8 } else { code as u16 * 16 }
}

// The number at a byte by the rule. Nothing that plays calls it.
pub fn reload_by_rule(ff22: u8) -> u16
    ensures { result ≡ reload_at ff22 }
{
    shift_left(base_divisor(ff22 % 8), ff22 / 16) / 4
}
