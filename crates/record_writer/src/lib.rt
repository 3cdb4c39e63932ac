// Records written into a lent room: the first six bytes of a record, as bytes or at a place. (`kind` is a number here: each is promised to be written, also
// one that no `records::Kind` stands for.)

#![tactic(auto)]

ghost use Rattle.std.specs.Prelude.{◌≡◌, [], ◌+◌};
ghost use Rattle.base.specs.Bytes.{overwritten};
ghost use Rattle.records.specs.Records.{index};
ghost use Rattle.records.specs.Stored.{head, stored};

use records::Block;

// 'A block's start is 0x0100 plus its index, its end 0x0200 plus it'. (Two functions, and no number of a `Kind`: that would have an answer for Unknown
// too, which is never written.)
pub fn start_kind(b: Block) -> usize
    ensures { result ≡ 0x0100 + index b }
{
    0x0100 + b.index()
}

pub fn end_kind(b: Block) -> usize
    ensures { result ≡ 0x0200 + index b }
{
    0x0200 + b.index()
}

// 'four-byte body length, two-byte kind .., little-endian'
pub fn head_of(size: usize, kind: usize) -> [u8; 6]
    ensures { result ≡ head size kind }
{
    let s = size.to_le_bytes();
    let k = kind.to_le_bytes();
    [s[0], s[1], s[2], s[3], k[0], k[1]]
}

// A record's first six bytes at a place of a room; a room that does not hold them there stays as it was. (No `room::Text`: it leaves free
// what stands past the text.)
pub fn set_head(room: &mut [u8], at: usize, size: usize, kind: usize)
    ensures { room.new ≡ overwritten room.old at (head size kind) }
{
    let bytes = head_of(size, kind);
    base::copy_from_slice(room, at, &bytes);
}

// A record without a body, likewise: a block's start or end.
pub fn set_block(room: &mut [u8], at: usize, kind: usize)
    ensures { room.new ≡ overwritten room.old at (stored kind []) }
{
    set_head(room, at, 0, kind);
}
