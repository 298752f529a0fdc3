//! Sequence reads.
ghost use Rattle.std.specs.Prelude.{◌≡◌, ◌↔◌, IsSome, IfSome, IfOk};
ghost use Rattle.std.specs.Option.{option_copied, option_map};

use crate::fastq::are_quality_bytes;
use crate::records::are_sequence_bytes;
use std::alloc::AllocError;
use std::marker::Model;

/// A sequence read: its bases and, if its format has them, one quality byte for each base.
///
/// Its bases are letters, `.`, `-` or `*`, and its qualities are 33 to 126.
#[derive(Debug, Drop)]
pub struct SeqRead {
    pub(crate) bases: Vec<u8>,
    pub(crate) quals: Option<Vec<u8>>,
}

impl Model for SeqRead {
    ghost use Rattle.std.specs.Option.{option_map};
    ghost use Rattle.kc_fastx.specs.Reads.{Read, IsRead, read_of};

    ghost Value = { Read };

    ghost view = { λ r. read_of r.bases.items (option_map (λ quals. quals.items) r.quals) };

    ghost invariant = { λ r. IsRead (read_of r.bases.items (option_map (λ quals. quals.items) r.quals)) };
}

impl SeqRead {
    ghost use Rattle.kc_fastx.specs.Reads.{read_of, IsRead};

    /// The read with these bases and qualities, if they can be those of a read.
    pub fn new(bases: Vec<u8>, quals: Option<Vec<u8>>) -> Option<SeqRead>
        ensures lawful { IsSome result ↔ IsRead (read_of bases.items (option_map (λ q. q.items) quals)) }
        ensures value { IfSome result (λ read. read ≡ read_of bases.items (option_map (λ q. q.items) quals)) }
    {
        let fits = match &quals {
            None => true,
            Some(quals) => quals.len() == bases.len() && are_quality_bytes(quals),
        };
        if are_sequence_bytes(&bases) && fits {
            Some(SeqRead { bases, quals })
        } else {
            None
        }
    }

    /// The same read as `other`, in the memory of this one.
    ///
    /// # Errors
    /// `AllocError` if `other` is longer and a growth was refused.
    pub fn refill(self, other: &SeqRead) -> Result<SeqRead, AllocError>
        ensures { IfOk result (λ read. read ≡ other.now) }
    {
        let SeqRead { mut bases, quals } = self;
        bases.clear();
        bases.extend_from_slice(&other.bases)?;
        let quals = match &other.quals {
            None => None,
            Some(others) => {
                let mut quals = quals.unwrap_or(Vec::new(*bases.allocator()));
                quals.clear();
                quals.extend_from_slice(others)?;
                Some(quals)
            }
        };
        Ok(SeqRead { bases, quals })
    }

    /// The bases, as in the file.
    pub fn bases(&self) -> &[u8]
        ensures value { result.now ≡ self.now.bases }
        ensures lawful { IsRead self.now }
    {
        &self.bases
    }

    /// The qualities, one for each base; none in FASTA.
    pub fn quals(&self) -> Option<&[u8]>
        ensures value { option_copied result ≡ self.now.quals }
        ensures lawful { IsRead self.now }
    {
        match &self.quals {
            None => None,
            Some(quals) => Some(quals.as_slice()),
        }
    }
}
