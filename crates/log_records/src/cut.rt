// Records in a log: two length bytes and the body of that many bytes.
ghost use Rattle.std.specs.Prelude.{◌≡◌};
ghost use Rattle.log_records.specs.Records.{cut_at, version_of};

// Refusal 5: the log ends within a record.
#[derive(Clone, Copy)]
pub struct CutShort;

// How the log goes on at a place: with a body of so many bytes, or it ends there.
pub fn cut_at(log: &[u8], at: usize) -> Result<Option<usize>, CutShort>
    ensures { result ≡ cut_at log.now at }
{
    let Some(rest) = log.get(at..) else {
        return Ok(None);
    };
    if let [high, low, after @ ..] = rest {
        let len = u16::from_be_bytes([*high, *low]) as usize;
        if after.len() < len {
            return Err(CutShort);
        }
        return Ok(Some(len));
    }
    match rest {
        [] => Ok(None),
        _ => Err(CutShort),
    }
}

// A log's version; 0 where it has none, and is refused.
pub fn version_of(log: &[u8]) -> u8
    ensures { result ≡ version_of log.now }
{
    log.first().copied().unwrap_or(0)
}
