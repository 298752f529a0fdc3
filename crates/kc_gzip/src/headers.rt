//! A member's header, field by field (RFC 1952, 2.3.1); only the register of its checksum is kept.
ghost use Rattle.std.specs.Prelude.{◌≡◌, ◌==◌, ◌<◌, ◌%◌, ◌^◌, ℕ, List, length, min, bit_xor, if◌then◌else◌};
ghost use Rattle.kc_gzip.specs.Buffer.{bits_left};
ghost use Rattle.kc_gzip.specs.Reading.{with_left, Gives};
ghost use Rattle.kc_gzip.specs.Crc.{first_register};
ghost use Rattle.kc_gzip.specs.Members.{has_flag};
ghost use Rattle.kc_gzip.specs.Fields.{sum_bytes_at, next_sum, start_at, begun_header, GoesOn, SumsLetters};

use crate::bits::Bits;
use crate::checksum::{FIRST_REGISTER, crc_after_byte, crc_after_bytes};
use crate::faults::GzipFault;
use crate::whole_files::{flags_of, has_flag, is_taken};
use std::alloc::Global;

/// What comes next in a header.
#[derive(Clone, Copy, Debug, PartialEq, Eq)]
pub enum Place {
    /// The length of the extra field.
    Size,
    /// So many bytes of the extra field.
    Extra(u32),
    /// The name, or the rest of it.
    Name,
    /// The comment, or the rest of it.
    Comment,
    /// The checksum.
    Sum,
}

/// A header that is begun.
#[derive(Clone, Copy, Debug, PartialEq, Eq)]
pub struct Header {
    pub place: Place,
    pub flags: u8,
    pub register: u32,
}

/// Takes the first ten bytes of a header.
///
/// # Errors
/// `Short` if fewer are left, `Broken` if they are wrong, and `Memory`.
#[tactic(auto, unfolding(crate::specs::Fields::start_at))]
pub fn take_start(alloc: Global, bits: &mut Bits) -> Result<(u8, u32), GzipFault>
    ensures { Gives (λ start. (start.0, start.1)) result (bits_left bits.new) (start_at (bits_left bits.old)) }
{
    if bits.number(8)? != 31 {
        return Err(GzipFault::Broken);
    }
    if bits.number(8)? != 139 {
        return Err(GzipFault::Broken);
    }
    let mut fixed = vec![in alloc; 31, 139]?;
    bits.put_bytes(8, &mut fixed)?;
    if !is_taken(fixed.as_slice()) {
        return Err(GzipFault::Broken);
    }
    Ok((
        flags_of(fixed.as_slice()),
        crc_after_bytes(FIRST_REGISTER, fixed.as_slice()),
    ))
}

/// Takes the next field, or the part of it that is there. Returns what is left of the header, if anything is.
///
/// # Errors
/// `Short` if nothing of the field is there, and `Broken` if the checksum is wrong.
pub fn take_field(header: Header, bits: &mut Bits) -> Result<Option<Header>, GzipFault>
    ensures { GoesOn result header (bits_left bits.old) (bits_left bits.new) }
{
    match header.place {
        Place::Size => take_size(header, bits),
        Place::Extra(left) => take_extra(header, left, bits),
        Place::Name => take_name(header, bits),
        Place::Comment => take_comment(header, bits),
        Place::Sum => take_sum(header, bits),
    }
}

// Takes the length of the extra field, if it is given.
fn take_size(header: Header, bits: &mut Bits) -> Result<Option<Header>, GzipFault>
    requires { header.place ≡ Place.Size }
    ensures { GoesOn result header (bits_left bits.old) (bits_left bits.new) }
{
    if !has_flag(header.flags, 2) {
        return Ok(Some(Header {
            place: Place::Name,
            flags: header.flags,
            register: header.register,
        }));
    }
    let low = match bits.number(8) {
        Ok(low) => low,
        Err(fault) => return Err(fault),
    };
    let high = match bits.number(8) {
        Ok(high) => high,
        Err(fault) => return Err(fault),
    };
    Ok(Some(Header {
        place: Place::Extra(low + 256 * high),
        flags: header.flags,
        register: crc_after_byte(crc_after_byte(header.register, low as u8), high as u8),
    }))
}

// Takes the bytes of the extra field that are there.
fn take_extra(header: Header, left: u32, bits: &mut Bits) -> Result<Option<Header>, GzipFault>
    requires { header.place ≡ Place.Extra left }
    ensures { GoesOn result header (bits_left bits.old) (bits_left bits.new) }
{
    let count = min_count(left, bits.whole_bytes());
    if count == 0 && left > 0 {
        return Err(GzipFault::Short);
    }
    match sum_bytes(header.register, count, bits) {
        Ok(register) => Ok(Some(Header {
            place: place_behind(left - count),
            flags: header.flags,
            register,
        })),
        Err(fault) => Err(fault),
    }
}

// What comes next if so many bytes of the extra field are left.
fn place_behind(left: u32) -> Place
    ensures { result ≡ (if left == 0 then Place.Name else Place.Extra left) }
{
    if left == 0 {
        Place::Name
    } else {
        Place::Extra(left)
    }
}

/// The lesser of both.
pub fn min_count(left: u32, there: usize) -> u32
    ensures { result ≡ min left there }
{
    if there < left as usize {
        there as u32
    } else {
        left
    }
}

// Takes the letters of the name that are there, if it is given.
fn take_name(header: Header, bits: &mut Bits) -> Result<Option<Header>, GzipFault>
    requires { header.place ≡ Place.Name }
    ensures { GoesOn result header (bits_left bits.old) (bits_left bits.new) }
{
    if !has_flag(header.flags, 3) {
        return Ok(Some(Header {
            place: Place::Comment,
            flags: header.flags,
            register: header.register,
        }));
    }
    match sum_letters(header.register, bits) {
        Ok((register, ended)) => Ok(Some(Header {
            place: place_after(ended, Place::Name, Place::Comment),
            flags: header.flags,
            register,
        })),
        Err(fault) => Err(fault),
    }
}

// Takes the letters of the comment that are there, if it is given.
fn take_comment(header: Header, bits: &mut Bits) -> Result<Option<Header>, GzipFault>
    requires { header.place ≡ Place.Comment }
    ensures { GoesOn result header (bits_left bits.old) (bits_left bits.new) }
{
    if !has_flag(header.flags, 4) {
        return Ok(Some(Header {
            place: Place::Sum,
            flags: header.flags,
            register: header.register,
        }));
    }
    match sum_letters(header.register, bits) {
        Ok((register, ended)) => Ok(Some(Header {
            place: place_after(ended, Place::Comment, Place::Sum),
            flags: header.flags,
            register,
        })),
        Err(fault) => Err(fault),
    }
}

// The place after a text, if that has ended.
fn place_after(ended: bool, now: Place, next: Place) -> Place
    ensures { result ≡ (if ended then next else now) }
{
    if ended { next } else { now }
}

// Takes the checksum, if it is given.
fn take_sum(header: Header, bits: &mut Bits) -> Result<Option<Header>, GzipFault>
    requires { header.place ≡ Place.Sum }
    ensures { GoesOn result header (bits_left bits.old) (bits_left bits.new) }
{
    if !has_flag(header.flags, 1) {
        return Ok(None);
    }
    let sum = match bits.number(16) {
        Ok(sum) => sum,
        Err(fault) => return Err(fault),
    };
    if sum != check_sum(header.register) {
        return Err(GzipFault::Broken);
    }
    Ok(None)
}

// A header's checksum.
fn check_sum(register: u32) -> u32
    ensures { result ≡ bit_xor register first_register % 2 ^ 16 }
{
    (register ^ FIRST_REGISTER) & 0xffff
}

// The register after so many bytes.
fn sum_bytes(register: u32, count: u32, bits: &mut Bits) -> Result<u32, GzipFault>
    ensures { sum_bytes_at register count (bits_left bits.old) ≡ with_left result (bits_left bits.new) }
{
    let mut current = register;
    for _ in 0..count {
        let byte = match bits.number(8) {
            Ok(byte) => byte,
            Err(fault) => return Err(fault),
        };
        current = crc_after_byte(current, byte as u8);
    }
    Ok(current)
}

// The register after the letters of a text up to its end, or after those that are there; and whether it ended.
fn sum_letters(register: u32, bits: &mut Bits) -> Result<(u32, bool), GzipFault>
    ensures { SumsLetters result register (bits_left bits.old) (bits_left bits.new) }
{
    let (mut current, mut ended) = match sum_letter(register, bits) {
        Ok(next) => next,
        Err(fault) => return Err(fault),
    };
    'letters: while !ended && bits.whole_bytes() > 0 {
        let (next, last) = match sum_letter(current, bits) {
            Ok(next) => next,
            Err(fault) => return Err(fault),
        };
        current = next;
        ended = last;
    }
    Ok((current, ended))
}

// The register after one letter, and whether it ends a text.
#[tactic(auto, unfolding(crate::specs::Fields::next_sum))]
fn sum_letter(register: u32, bits: &mut Bits) -> Result<(u32, bool), GzipFault>
    ensures read { next_sum register (bits_left bits.old) ≡ with_left result (bits_left bits.new) }
{
    let byte = bits.number(8)?;
    Ok((crc_after_byte(register, byte as u8), byte == 0))
}
