// What a line adds to a document.
ghost use Rattle.std.specs.Prelude.{◌≡◌, ◌≤◌};
ghost use Rattle.records.specs.Records.{number};
ghost use Rattle.room.specs.Lent.{text_of, with_bytes};
ghost use Rattle.sample_lines.specs.InnerLines.{written};
ghost use Rattle.sample_lines.specs.InnerAdding.{repeated, head, text_record, block_records, added_by};

use records::Style;
use room::Text;

// Some bytes, so many times.
fn put_times(d: &mut Text, bytes: &[u8], times: usize)
    ensures { text_of d.new ≡ with_bytes (repeated times bytes.now) (text_of d.old) }
{
    for _ in 0..times {
        d.put_all(bytes);
    }
}

// First bytes of records: the body's length, and the kind.
// (No `record_writer::head_of`, which has the length's four bytes: the list's rule has the two lowest.)
fn put_heads(d: &mut Text, size: usize, kind: usize, times: usize)
    ensures { text_of d.new ≡ with_bytes (repeated times (head size kind)) (text_of d.old) }
{
    let size = size.to_le_bytes();
    let kind = kind.to_le_bytes();
    let head: [u8; 6] = [size[0], size[1], 0, 0, kind[0], kind[1]];
    put_times(d, &head, times)
}

// A record in a style, of the text that some bytes stand for.
#[tactic(auto, using(crate::proofs::Adding::record_wrote))]
fn put_record(bytes: &[u8], d: &mut Text, style: Style)
    ensures { text_of d.new ≡ with_bytes (text_record (number style) (written 0 bytes.now)) (text_of d.old) }
{
    put_heads(d, crate::text_size(bytes), style.number(), 1);
    crate::put_text(d, bytes);
}

// Block records. Their kind is a number, since a line may ask for one that no block has.
#[tactic(auto, using(crate::proofs::Adding::blocks_are))]
fn put_blocks(line: &[u8], d: &mut Text, first: usize)
    requires { first ≤ 0x0200 }
    ensures { text_of d.new ≡ with_bytes (block_records first line.now) (text_of d.old) }
{
    let (index, times) = crate::two_numbers(line);
    put_heads(d, 0, first + index, times)
}

// Adds what a line adds to the document: a text record in one of five styles, starts or ends of a block, zeros, or else bytes.
#[tactic(auto, unfolding(crate::specs::InnerAdding::added_by, crate::specs::InnerAdding::style_of, crate::proofs::Names::choose))]
pub fn add(line: &[u8], d: &mut Text)
    ensures { text_of d.new ≡ with_bytes (added_by line.now) (text_of d.old) }
{
    let text = base::get_from(line, 2);
    match compared::byte_or(line, 0, 0) {
        b'T' => put_record(text, d, Style::Text),
        b'E' => put_record(text, d, Style::Emphasis),
        b'L' => put_record(text, d, Style::Literal),
        b'M' => put_record(text, d, Style::Metavar),
        b'I' => put_record(text, d, Style::Invalid),
        b'(' => put_blocks(line, d, 0x0100),
        b')' => put_blocks(line, d, 0x0200),
        b'Z' => put_times(d, b"\0", crate::number(line)),
        _ => crate::put_text(d, text),
    }
}
