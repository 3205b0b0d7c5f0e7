//! Reads a moment from its text form.
ghost use Rattle.std.specs.Prelude.{◌≡◌, option_map};
ghost use Rattle.pg_values.specs.Reading.{whole_minutes, minutes_at, offset_at, zone_at, fraction_at, point_at, second_at, seconds_at, mark_at, clock_behind, clock_at, written_at};

use crate::digits::{digits, fixed, small_number};
use crate::written::{Clock, Fraction, Offset, Seconds, Separator, Sign, Written, Zone};

/// The bytes after this one.
fn after_mark(mark: u8, text: &[u8]) -> Option<&[u8]>
    ensures { option_map (λ x. x.now) result ≡ mark_at mark text.now }
{
    match text {
        [first, rest @ ..] if *first == mark => Some(rest),
        _ => None,
    }
}

#[tactic(auto, unfolding(crate::specs::Reading::whole_minutes))]
fn whole_minutes(text: &[u8]) -> Option<Option<u32>>
    ensures { result ≡ whole_minutes text.now }
{
    let (minutes, rest) = fixed(2, text)?;
    if !rest.is_empty() {
        return None;
    }
    Some(Some(minutes))
}

/// The minutes of an offset, if they are there.
#[tactic(auto, unfolding(crate::specs::Reading::minutes_at))]
fn minutes(text: &[u8]) -> Option<Option<u32>>
    ensures { result ≡ minutes_at text.now }
{
    match text {
        [] => Some(None),
        [b':', rest @ ..] => whole_minutes(rest),
        _ => None,
    }
}

#[tactic(auto, unfolding(crate::specs::Reading::offset_at))]
fn offset(sign: Sign, text: &[u8]) -> Option<Zone>
    ensures { result ≡ offset_at sign text.now }
{
    let (hours, rest) = fixed(2, text)?;
    let minutes = minutes(rest)?;
    Some(Zone::Offset(Offset {
        sign,
        hours,
        minutes,
    }))
}

#[tactic(auto, unfolding(crate::specs::Reading::zone_at))]
fn zone(text: &[u8]) -> Option<Zone>
    ensures { result ≡ zone_at text.now }
{
    match text {
        [] => Some(Zone::Unwritten),
        [b'Z'] => Some(Zone::Zulu),
        [b'+', rest @ ..] => offset(Sign::East, rest),
        [b'-', rest @ ..] => offset(Sign::West, rest),
        _ => None,
    }
}

/// The digits behind a point, and the bytes after them.
#[tactic(auto, unfolding(crate::specs::Reading::fraction_at), using(crate::proofs::DigitLemmas::are_digits_front))]
fn fraction(text: &[u8]) -> Option<(Option<Fraction>, &[u8])>
    ensures { option_map (λ x. (x.0, x.1.now)) result ≡ fraction_at text.now }
{
    let (front, rest) = digits(text);
    if front.is_empty() || front.len() > 6 {
        return None;
    }
    let fraction = Fraction {
        digits: front.len() as u32,
        number: small_number(front),
    };
    Some((Some(fraction), rest))
}

/// A point and digits, if there is a point, and the bytes after them.
#[tactic(auto, unfolding(crate::specs::Reading::point_at))]
fn point(text: &[u8]) -> Option<(Option<Fraction>, &[u8])>
    ensures { option_map (λ x. (x.0, x.1.now)) result ≡ point_at text.now }
{
    match text {
        [b'.', rest @ ..] => fraction(rest),
        _ => Some((None, text)),
    }
}

#[tactic(auto, unfolding(crate::specs::Reading::second_at))]
fn second(text: &[u8]) -> Option<(Option<Seconds>, &[u8])>
    ensures { option_map (λ x. (x.0, x.1.now)) result ≡ second_at text.now }
{
    let (second, rest) = fixed(2, text)?;
    let (fraction, rest) = point(rest)?;
    Some((Some(Seconds { second, fraction }), rest))
}

/// A colon and seconds, if there is a colon, and the bytes after them.
#[tactic(auto, unfolding(crate::specs::Reading::seconds_at))]
fn seconds(text: &[u8]) -> Option<(Option<Seconds>, &[u8])>
    ensures { option_map (λ x. (x.0, x.1.now)) result ≡ seconds_at text.now }
{
    match text {
        [b':', rest @ ..] => second(rest),
        _ => Some((None, text)),
    }
}

/// The time of day and the zone.
#[tactic(auto, unfolding(crate::specs::Reading::clock_behind))]
fn clock_behind(separator: Separator, text: &[u8]) -> Option<Option<Clock>>
    ensures { result ≡ clock_behind separator text.now }
{
    let (hour, rest) = fixed(2, text)?;
    let rest = after_mark(b':', rest)?;
    let (minute, rest) = fixed(2, rest)?;
    let (seconds, rest) = seconds(rest)?;
    let zone = zone(rest)?;
    Some(Some(Clock {
        separator,
        hour,
        minute,
        seconds,
        zone,
    }))
}

#[tactic(auto, unfolding(crate::specs::Reading::clock_at))]
fn clock(text: &[u8]) -> Option<Option<Clock>>
    ensures { result ≡ clock_at text.now }
{
    match text {
        [] => Some(None),
        [b' ', rest @ ..] => clock_behind(Separator::Space, rest),
        [b'T', rest @ ..] => clock_behind(Separator::LetterT, rest),
        _ => None,
    }
}

/// The fields of a moment, if the text is of its grammar.
#[tactic(auto, unfolding(crate::specs::Reading::written_at))]
pub fn written(text: &[u8]) -> Option<Written>
    ensures { result ≡ written_at text.now }
{
    let (year, rest) = fixed(4, text)?;
    let rest = after_mark(b'-', rest)?;
    let (month, rest) = fixed(2, rest)?;
    let rest = after_mark(b'-', rest)?;
    let (day, rest) = fixed(2, rest)?;
    let clock = clock(rest)?;
    Some(Written {
        year,
        month,
        day,
        clock,
    })
}
