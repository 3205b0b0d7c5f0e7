//! The greatest of next numbers.
ghost use Rattle.std.specs.Prelude.{◌≡◌};
ghost use Rattle.server_check.specs.Numbers.{greatest};

use crate::answer::Answer;
use crate::server::Server;

/// The number that a server has told in answer to a question.
pub fn told_number(server: &Server, question: usize) -> Option<u64> {
    match server.answers.get(question) {
        Some(Answer::Told(text)) => text.as_str().parse::<u64>().ok(),
        Some(Answer::Nothing) | Some(Answer::Refused(_)) | None => None,
    }
}

/// The greatest of these numbers. None: there is none.
pub fn greatest(numbers: &[u64]) -> Option<u64>
    ensures { result ≡ greatest numbers.now }
{
    let [first, others @ ..] = numbers else {
        return None;
    };
    match greatest(others) {
        Some(most) => Some(if most < *first { *first } else { most }),
        None => Some(*first),
    }
}
