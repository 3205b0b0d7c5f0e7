//! The number of a port, which has one text.
ghost use Rattle.std.specs.Prelude.{◌≡◌};
ghost use Rattle.pool_config.specs.Value.{number_of};
ghost use Rattle.serve_base.specs.Reader.{is_short_numeral, port_of};

/// A number has at most so many digits.
const MOST_DIGITS: usize = 10;

/// The port that has this text.
pub(crate) fn read_port(digits: &[u8]) -> Option<u16>
    ensures { result ≡ port_of digits.now }
{
    if !is_short_numeral(digits) {
        return None;
    }
    let number = read_number(digits)?;
    u16::try_from(number).ok()
}

/// One byte to five, and no zero before others.
fn is_short_numeral(digits: &[u8]) -> bool
    ensures { result ≡ is_short_numeral digits.now }
{
    match digits {
        [] => false,
        [_] => true,
        [first, ..] => *first != b'0' && digits.len() <= 5,
    }
}

#[tactic(auto, using(crate::proofs::Numbers::one_more))]
/// The number of one to ten decimal digits.
fn read_number(word: &[u8]) -> Option<u64>
    ensures { result ≡ number_of word.now }
{
    if word.is_empty() || word.len() > MOST_DIGITS {
        return None;
    }
    let mut number: u64 = 0;
    let mut left = word;
    while let [digit, rest @ ..] = left {
        if !digit.is_ascii_digit() {
            return None;
        }
        number = number * 10 + (*digit - b'0') as u64;
        left = rest;
    }
    Some(number)
}
