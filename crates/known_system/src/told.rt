//! A writer whose bytes are known.
ghost use Rattle.std.specs.Prelude.{◌≡◌, ℕ, List, [], ◌++◌, Some, None, IfSome};
ghost use Rattle.std.specs.Coded.{coded_ℕ, coded_list};
ghost use Rattle.std.proofs.Props.{props};
ghost use base.Fml.{ftrue};

use runs::ByteOut;
use std::alloc::Global;
use std::io;
use std::marker::Model;

/// The bytes that a writer took: data of proofs alone.
#[derive(Drop)]
pub struct Said {
    pub ghost bytes: { List ℕ } by { coded_list coded_ℕ },
}

impl Model for Said {
    ghost also_owns = { λ _. ftrue };
}

/// Bytes that a writer is given.
#[derive(Clone, Copy, Drop)]
pub struct Piece<'a> {
    /// The bytes.
    pub bytes: &'a [u8],
}

impl Said {
    /// No byte yet.
    pub fn new() -> Said
        ensures { result.bytes ≡ [] }
    {
        Said {}
    }

    /// The bytes, and those of a piece after them.
    #[inline(always)]
    pub fn then(&self, _piece: &Piece<'_>) -> Said
        ensures { result.bytes ≡ self.now.bytes ++ _piece.now.bytes.now }
    {
        Said {}
    }
}

/// A writer that takes all that it is given. What it took is known in proofs; a copy is kept as
/// long as memory lasts.
#[derive(Drop)]
pub struct Told {
    kept: Option<Vec<u8>>,
    /// All that it took.
    pub said: Said,
    ghost tied: { IfSome kept (λ bytes. bytes.items ≡ said.bytes) } by { Prim.hlevel props },
}

impl Told {
    /// The writer that took nothing yet.
    pub fn new(alloc: Global) -> Told
        ensures { result.said.bytes ≡ [] }
    {
        Told {
            kept: Some(Vec::new(alloc)),
            said: Said::new(),
        }
    }

    /// All that it took, where memory lasted.
    pub fn into_bytes(self) -> Option<Vec<u8>>
        ensures { IfSome result (λ bytes. bytes.items ≡ self.said.bytes) }
    {
        let Told { kept, .. } = self;
        kept
    }
}

impl ByteOut for Told {
    ghost contents = { λ told. Some told.said.bytes };

    ghost failures = { λ _. 0 };

    ghost given = { λ _. None };

    fn put(&mut self, piece: &[u8]) -> io::Result<usize> {
        self.said = self.said.then(&Piece { bytes: piece });
        self.kept = match self.kept.take() {
            Some(mut bytes) => match bytes.extend_from_slice(piece) {
                Ok(()) => Some(bytes),
                Err(_) => None,
            },
            None => None,
        };
        Ok(piece.len())
    }
}
