// A document into the joined form (02, point 7) and back, and places of the one in the other.

#![tactic(auto)]

ghost use Rattle.std.specs.Prelude.{◌≡◌, [], length};
ghost use Rattle.std.specs.List.{concat};
ghost use Rattle.base.specs.Bytes.{overwritten};
ghost use Rattle.base.specs.Result.{gives, measured};
ghost use Rattle.records.specs.Records.{document_text};
ghost use Rattle.records.specs.Stored.{little_bytes};
ghost use Rattle.room.specs.Lent.{text_of, with_bytes};
ghost use Rattle.refusal.specs.Answers.{answered};
ghost use Rattle.renderer.specs.Rendered.{standing, Inside, filled};
ghost use Rattle.joined_rules.specs.Joined.{heads_of, unjoined, check_joined, joins_into, unjoins_into};
ghost use Rattle.joined_rules.specs.Places.{place_in, byte_in};

use joined_check::Shares;
use records::Records;
use refusal::Refusal;
use room::Text;

// A number in four bytes more.
fn put_four(t: &mut Text, n: usize)
    ensures { text_of t.new ≡ with_bytes (little_bytes 4 n) (text_of t.old) }
{
    t.put_all(&n.to_le_bytes()[..4]);
}

// A number in the first four bytes of a room; a smaller room stays as it was.
// (No method of `Text`, whose contracts speak of what stands after the text, and not of bytes within it.)
fn set_four(room: &mut [u8], n: usize)
    ensures { room.new ≡ overwritten room.old 0 (little_bytes 4 n) }
{
    base::copy_from_slice(room, 0, &n.to_le_bytes()[..4])
}

// The two passes stay apart: one function of both would take the part of a record that it writes as a closure, and its contract would speak of that.

// The bodies of a document's records.
fn put_bodies(document: &[u8], t: &mut Text)
    ensures { text_of t.new ≡ with_bytes (document_text document.now) (text_of t.old) }
{
    for r in Records::of(document) {
        t.put_all(r.body);
    }
}

// The first six bytes of each record of a document; of the last one those that are there.
fn put_heads(document: &[u8], t: &mut Text)
    ensures { text_of t.new ≡ with_bytes (concat (heads_of document.now)) (text_of t.old) }
{
    for r in Records::of(document) {
        t.put_all(&document[r.place..r.start]);
    }
}

// Refusals 1 to 8, then the joined form; the text's length is known and set once the text is written.
fn joined_into(document: &[u8], room: &mut [u8]) -> Result<usize, Refusal>
    ensures text { standing room.new result ≡ joins_into (length room.old) document.now }
    ensures inside { Inside (length room.old) result }
{
    document::check(document)?;
    let mut t = Text::new(room);
    put_four(&mut t, 0);
    let text = t.len;
    put_bodies(document, &mut t);
    let heads = t.len;
    put_heads(document, &mut t);
    let end = t.finish();
    set_four(room, heads.saturating_sub(text));
    renderer::answer(room, end)
}

// A document into the joined form. The room is 0 beyond it, and all 0 after a refusal. (A line that each renderer has: console::render_console says why.)
pub fn join(document: &[u8], room: &mut [u8]) -> Result<usize, Refusal>
    ensures answer { answered result ≡ measured (joins_into (length room.old) document.now) }
    ensures room { room.new ≡ filled (length room.old) (joins_into (length room.old) document.now) }
{
    renderer::cleared(joined_into(document, room), room)
}

// Each record's first bytes with its share of the text, of an accepted joined form.
fn put_records(joined: &[u8], t: &mut Text)
    requires { check_joined joined.now ≡ gives [] }
    ensures { text_of t.new ≡ with_bytes (unjoined joined.now) (text_of t.old) }
{
    let mut text = joined_check::text_in(joined);
    for s in Shares::of(joined) {
        let (share, rest) = text.split_at(s.size());
        // six bytes, of an accepted form: their number is known to the compiler, where that of `s.head` is the lesser of two
        t.put_all(&s.head[..6]);
        t.put_all(share);
        text = rest;
    }
}

// Refusals 1, 17, 2 to 8 and 18, then the document.
fn unjoined_into(joined: &[u8], room: &mut [u8]) -> Result<usize, Refusal>
    ensures text { standing room.new result ≡ unjoins_into (length room.old) joined.now }
    ensures inside { Inside (length room.old) result }
{
    joined_check::check(joined)?;
    let mut t = Text::new(room);
    put_records(joined, &mut t);
    renderer::finish(t)
}

// A joined form into a document. The room is 0 beyond it, and all 0 after a refusal.
pub fn unjoin(joined: &[u8], room: &mut [u8]) -> Result<usize, Refusal>
    ensures answer { answered result ≡ measured (unjoins_into (length room.old) joined.now) }
    ensures room { room.new ≡ filled (length room.old) (unjoins_into (length room.old) joined.now) }
{
    renderer::cleared(unjoined_into(joined, room), room)
}

// Where the record stands that the document has at place `p`.
// (The document's places are counted along, here and in `byte_in`: an item of `Shares` that had them would still leave the end to be counted.)
pub fn place_in(joined: &[u8], p: usize) -> usize
    ensures { result ≡ place_in joined.now p }
{
    let mut records = Shares::of(joined);
    let mut at: usize = 0;
    // `while let`, since the place that the iterator ends at is read: a `for` lends it to the loop alone
    while let Some(s) = records.next() {
        if p <= at {
            return s.place;
        }
        at = at.saturating_add(6 + s.size());
    }
    records.at
}

// Where the byte of a body stands, or the body's end, that the document has at place `p`.
pub fn byte_in(joined: &[u8], p: usize) -> usize
    ensures { result ≡ byte_in joined.now p }
{
    let mut at: usize = 0;
    let mut from: usize = 4;
    for s in Shares::of(joined) {
        let size = s.size();
        let next = at.saturating_add(6 + size);
        if p <= next {
            return from + (p - at).saturating_sub(6);
        }
        from += size;
        at = next;
    }
    from
}
