//! Gzip: the text of compressed bytes (RFC 1951 and RFC 1952).
//!
//! `gunzip` returns the text of all members of a file, or a `GzipFault`: the bytes are broken or cut short. A `Gunzip`
//! is a source of the decompressed bytes of another. `crc32` is the checksum of a member. The text of bytes is defined
//! in `specs/` (`Bits`, `Codes`, `Elements`, `Blocks`, `Members`; `Crc` for the checksum), and `laws` has worked rows.
//!
//! ```ignore
//! let file = b"\x1f\x8b\x08\x00\x00\x00\x00\x00\x00\xff\xb3+2\xe4rt\xe6\x02\x00\xc6\xce\xff\x9a\x07\x00\x00\x00";
//! let text = gunzip(alloc, file)?;
//! assert_eq!(rt; text.as_slice(), b">r1\nAC\n".as_slice());
//! assert_eq!(rt; crc32(&text), 2_600_455_878);
//! ```
#![tactic(auto)]

mod bits;
mod blocks;
mod checksum;
mod codes;
mod completeness;
mod dynamic_codes;
mod elements;
mod faults;
mod gunzips;
mod gzip_or_plain;
mod headers;
pub mod laws;
mod lent_source;
mod lookups;
mod member_stages;
mod portions;
mod unpacked_intakes;
mod whole_files;

pub use checksum::crc32;
pub use faults::GzipFault;
pub use gunzips::Gunzip;
pub use gzip_or_plain::GunzipFault;
pub use unpacked_intakes::{Intake, TakeFault};
pub use whole_files::gunzip;
