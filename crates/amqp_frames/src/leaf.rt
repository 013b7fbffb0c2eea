//! Writes and measures runs of octets and the heads of lists, with the shortest code that fits (part 1, 1.6).
ghost use Rattle.std.specs.Prelude.{◌≡◌, ℕ, List, length, Some, None, OnOk};
ghost use Rattle.amqp_types.specs.declared.class.Kind.TheVariants as kind;
ghost use Rattle.amqp_types.specs.Datum.{number};
ghost use Rattle.amqp_types.specs.Canon.{part_form, capped};
ghost use Rattle.amqp_frames.specs.Field.{added, run_octets, list_octets, list_size};

use amqp_types::WriteFault;

#[inline]
#[tactic(auto, using(crate::proofs::Leaves::ubyte_form))]
pub(crate) fn ubyte_size(_n: u8) -> u64
    ensures { Some result ≡ capped (part_form None (number kind.Ubyte _n)) }
{
    2
}

#[inline]
#[tactic(auto, using(crate::proofs::Leaves::ushort_form))]
pub(crate) fn ushort_size(_n: u16) -> u64
    ensures { Some result ≡ capped (part_form None (number kind.Ushort _n)) }
{
    3
}

/// Returns the encoded length of a run of `len` octets, with its code and its size.
#[inline]
pub(crate) fn run_len(len: usize) -> Option<u64>
    ensures { (small large : ℕ) (text : List ℕ) → length text ≡ len → result ≡ capped (run_octets small large text) }
{
    if len < 256 {
        Some(len as u64 + 2)
    } else if len < 0x1_0000_0000 {
        Some(len as u64 + 5)
    } else {
        None
    }
}

/// Writes the octets under the code `small`, with a size of one octet, or `large`, with a size of four.
#[inline]
pub(crate) fn put_run(
    small: u8,
    large: u8,
    octets: &[u8],
    out: &mut Vec<u8>,
) -> Result<(), WriteFault>
    ensures { OnOk result (added out.old.items (run_octets small large octets.now) ≡ Some out.new.items) }
{
    let len = octets.len();
    if len < 256 {
        out.extend_from_slice(&[small, len as u8])?;
    } else if len < 0x1_0000_0000 {
        let [a, b, c, d] = (len as u32).to_be_bytes();
        out.extend_from_slice(&[large, a, b, c, d])?;
    } else {
        return Err(WriteFault::NotWritable);
    }
    out.extend_from_slice(octets)?;
    Ok(())
}

/// Returns the encoded length of a list of `count` items that take `size` octets together.
#[inline]
pub(crate) fn list_len(count: u64, size: u64) -> Option<u64>
    ensures { result ≡ list_size count size }
{
    if count == 0 {
        Some(1)
    } else if size < 0xff && count < 0x100 {
        Some(size + 3)
    } else if size < 0xffff_fffc && count < 0x1_0000_0000 {
        Some(size + 9)
    } else {
        None
    }
}

/// Writes the head of a list of `count` items that take `size` octets together.
#[inline]
pub(crate) fn put_list_head(count: u64, size: u64, out: &mut Vec<u8>) -> Result<(), WriteFault>
    ensures { OnOk result (added out.old.items (list_octets count size) ≡ Some out.new.items) }
{
    if count == 0 {
        out.push(0x45)?;
        Ok(())
    } else if size < 0xff && count < 0x100 {
        out.extend_from_slice(&[0xc0, size as u8 + 1, count as u8])?;
        Ok(())
    } else if size < 0xffff_fffc && count < 0x1_0000_0000 {
        let [a, b, c, d] = (size as u32 + 4).to_be_bytes();
        let [e, f, g, h] = (count as u32).to_be_bytes();
        out.extend_from_slice(&[0xd0, a, b, c, d, e, f, g, h])?;
        Ok(())
    } else {
        Err(WriteFault::NotWritable)
    }
}
