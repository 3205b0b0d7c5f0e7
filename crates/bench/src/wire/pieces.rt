//! What the client sends.
use pg_messages::{ClientMessage, fits, write_client};
use pool_base::{List, NoMemory};
use std::alloc::Global;

/// A start message, with a user and a database.
const START: &[u8] = b"\x00\x00\x00\x22\x00\x03\x00\x00user\x00bench\x00database\x00pool\x00\x00";

/// Messages one behind another, as bytes, and how many they are.
#[derive(Drop)]
pub struct Piece {
    pub bytes: List<u8>,
    pub messages: u64,
}

impl Piece {
    /// No messages.
    pub fn new(alloc: Global) -> Piece {
        Piece {
            bytes: List::new(alloc),
            messages: 0,
        }
    }

    /// Puts a message that can be written, and no other.
    fn put(&mut self, message: ClientMessage) -> Result<(), NoMemory> {
        if fits(&message) {
            write_client(&message, &mut self.bytes)?;
            self.messages = self.messages.saturating_add(1);
        }
        Ok(())
    }

    /// A portal of the prepared statement with its key, under the empty name.
    fn put_bind(&mut self, alloc: Global) -> Result<(), NoMemory> {
        let mut values = List::new(alloc);
        values.push(Some(List::from_slice(alloc, b"1000001")?))?;
        self.put(ClientMessage::Bind {
            portal: List::new(alloc),
            name: List::from_slice(alloc, b"S_1")?,
            formats: List::new(alloc),
            values,
            results: List::new(alloc),
        })
    }

    fn put_describe(&mut self, alloc: Global) -> Result<(), NoMemory> {
        self.put(ClientMessage::Describe {
            portal: true,
            name: List::new(alloc),
        })
    }

    fn put_execute(&mut self, alloc: Global) -> Result<(), NoMemory> {
        self.put(ClientMessage::Execute {
            portal: List::new(alloc),
            limit: 0,
        })
    }
}

/// What a client sends before all else.
pub fn start(alloc: Global) -> Result<Piece, NoMemory> {
    Ok(Piece {
        bytes: List::from_slice(alloc, START)?,
        messages: 1,
    })
}

/// A SELECT by key as a text.
pub fn query(alloc: Global) -> Result<Piece, NoMemory> {
    let mut piece = Piece::new(alloc);
    piece.put(ClientMessage::Query {
        text: List::from_slice(alloc, b"SELECT v, w FROM accounts WHERE id = 1000001")?,
    })?;
    Ok(piece)
}

/// The same is prepared; the key is a parameter.
pub fn parse(alloc: Global) -> Result<Piece, NoMemory> {
    let mut piece = Piece::new(alloc);
    piece.put(ClientMessage::Parse {
        name: List::from_slice(alloc, b"S_1")?,
        text: List::from_slice(alloc, b"SELECT v, w FROM accounts WHERE id = $1")?,
        kinds: List::from_slice(alloc, &[23])?,
    })?;
    Ok(piece)
}

/// Bind, Describe, Execute and Sync.
pub fn whole(alloc: Global) -> Result<Piece, NoMemory> {
    let mut piece = Piece::new(alloc);
    piece.put_bind(alloc)?;
    piece.put_describe(alloc)?;
    piece.put_execute(alloc)?;
    piece.put(ClientMessage::Sync)?;
    Ok(piece)
}

/// Bind and Execute.
pub fn pair(alloc: Global) -> Result<Piece, NoMemory> {
    let mut piece = Piece::new(alloc);
    piece.put_bind(alloc)?;
    piece.put_execute(alloc)?;
    Ok(piece)
}

/// Sync.
pub fn sync(alloc: Global) -> Result<Piece, NoMemory> {
    let mut piece = Piece::new(alloc);
    piece.put(ClientMessage::Sync)?;
    Ok(piece)
}
