//! A question to a server.

use pool_base::Text;
use postgres_link::Word;

/// A question to a server, which answers it by one text, or by a tag.
#[derive(Drop)]
pub struct Question {
    /// What it is about, as an operator reads it.
    pub subject: Text,
    /// Its SQL.
    pub sql: Text,
    /// What is wanted. None: whatever it is, all servers tell the same.
    pub wanted: Option<Text>,
    /// The word whose tag answers it: `done`. None: a row does.
    pub word: Option<Word>,
}
