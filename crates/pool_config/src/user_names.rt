//! The numbers of users, as names have them.
ghost use Rattle.std.specs.Prelude.{◌≡◌, slice_get};
ghost use Rattle.pool_config.specs.Users.{all_users, user_at, one_digit, second_digit};

use crate::user::UserNumber;

#[tactic(auto, using(crate::proofs::UserNumbers::users_are))]
/// The users, by number.
pub(crate) fn all_users() -> [UserNumber; 16]
    ensures { result ≡ all_users }
{
    [
        UserNumber { number: 0 },
        UserNumber { number: 1 },
        UserNumber { number: 2 },
        UserNumber { number: 3 },
        UserNumber { number: 4 },
        UserNumber { number: 5 },
        UserNumber { number: 6 },
        UserNumber { number: 7 },
        UserNumber { number: 8 },
        UserNumber { number: 9 },
        UserNumber { number: 10 },
        UserNumber { number: 11 },
        UserNumber { number: 12 },
        UserNumber { number: 13 },
        UserNumber { number: 14 },
        UserNumber { number: 15 },
    ]
}

#[tactic(auto, using(crate::proofs::UserNumbers::user_there, crate::proofs::UserNumbers::none_there))]
/// The user of that number, if there is one.
fn with_number(number: u8) -> Option<UserNumber>
    ensures { result ≡ slice_get all_users number }
{
    if number >= 16 {
        return None;
    }
    Some(UserNumber { number })
}

/// The user whose number is one digit.
fn one_digit(digit: u8) -> Option<UserNumber>
    ensures { result ≡ one_digit digit }
{
    if !digit.is_ascii_digit() {
        return None;
    }
    with_number(digit - b'0')
}

/// The user whose number is 1 and another digit.
fn second_digit(digit: u8) -> Option<UserNumber>
    ensures { result ≡ second_digit digit }
{
    if !digit.is_ascii_digit() {
        return None;
    }
    with_number(digit - b'0' + 10)
}

/// The user whose number is written so.
pub fn user_at(digits: &[u8]) -> Option<UserNumber>
    ensures { result ≡ user_at digits.now }
{
    if digits.len() == 1 {
        return one_digit(digits[0]);
    }
    if digits.len() == 2 && digits[0] == b'1' {
        return second_digit(digits[1]);
    }
    None
}
