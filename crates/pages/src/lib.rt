// Pages of a text by height, for a screen without scrolling. A text is any bytes.

#![tactic(auto)]

ghost use Rattle.std.specs.Prelude.{◌≡◌, eqb, length};
ghost use Rattle.base.specs.Choice.{among};
ghost use Rattle.base.specs.Result.{measured};
ghost use Rattle.pages.specs.Pages.{rows, page_of, page_start, page_count, shown};
ghost use Rattle.pages.specs.RowList.{feeds};
ghost use Rattle.pages.specs.Answers.{start_of, size_of, count_of};
ghost use Rattle.pages.specs.InnerParts.{bytes_of};

use refusal::Refusal;

// A part of a text: where it starts, and how many bytes it has.
// No Range: the C interface gives a page's start and its size.
#[derive(Clone, Copy)]
pub struct Part {
    pub start: usize,
    pub size: usize,
}

fn is_feed(b: u8) -> bool
    ensures { result ≡ eqb b 0x0A }
{
    b == b'\n'
}

// How many bytes of s are line feeds.
fn line_feeds(s: &[u8]) -> usize
    ensures { result ≡ feeds s.now }
{
    base::count(s, is_feed)
}

// How many rows a text has.
fn row_count(s: &[u8]) -> usize
    ensures { result ≡ length (rows s.now) }
{
    let Some(last) = s.last() else {
        return 0;
    };
    let n = line_feeds(s);
    if *last == b'\n' {
        return n;
    }
    n + 1
}

// How many bytes the first k rows of a text have, byte by byte: up to the k-th line feed, and all of them where there are not so many.
fn step_rows(s: &[u8], k: usize) -> usize
    ensures { result ≡ bytes_of k s.now }
{
    if k == 0 {
        return 0;
    }
    let mut feeds = s.iter().enumerate().filter(|(_, b)| **b == b'\n');
    match feeds.nth(k - 1) {
        Some((i, _)) => i + 1,
        None => s.len(),
    }
}

// How many bytes the first k rows of a text have: a block of 128 that does not hold the last of them is passed over. (No `for` over blocks: what stands
// behind a block is needed too, and `split_first_chunk` hands out both.)
fn skip_rows(s: &[u8], k: usize) -> usize
    ensures { result ≡ bytes_of k s.now }
{
    let mut due = k;
    let mut rest = s;
    while let Some((block, after)) = rest.split_first_chunk::<128>() {
        let n = usize::from(base::few(block, &is_feed));
        if due <= n {
            break;
        }
        due -= n;
        rest = after;
    }
    s.len() - rest.len() + step_rows(rest, due)
}

// The largest height of a page.
const MAX_HEIGHT: usize = 200;

// The heights of a page.
fn is_height(height: usize) -> bool
    ensures { result ≡ among 1 200 height }
{
    (1..=MAX_HEIGHT).contains(&height)
}

// Where a page stands in a text.
pub fn find_page(text: &[u8], height: usize, page: usize) -> Result<Part, Refusal>
    ensures start { start_of result ≡ page_start height page text.now }
    ensures size { size_of result ≡ measured (page_of height page text.now) }
{
    if !is_height(height) {
        return Err(Refusal::WrongHeight);
    }
    if page < 1 {
        return Err(Refusal::NoPage);
    }
    let before = page - 1;
    if text.len() / height < before {
        return Err(Refusal::NoPage);
    }
    let start = skip_rows(text, height * before);
    if start == text.len() {
        return Err(Refusal::NoPage);
    }
    let size = skip_rows(&text[start..], height);
    Ok(Part { start, size })
}

// A page as a part of the text, empty after a refusal.
pub fn page<'a>(text: &'a [u8], height: usize, page: usize) -> &'a [u8]
    ensures { result.now ≡ shown (page_of height page text.now) }
{
    match find_page(text, height, page) {
        Ok(part) => &text[part.start..part.start + part.size],
        Err(_) => &text[..0],
    }
}

// How many pages a text has.
pub fn page_count(text: &[u8], height: usize) -> Result<usize, Refusal>
    ensures { count_of result ≡ page_count height text.now }
{
    if !is_height(height) {
        return Err(Refusal::WrongHeight);
    }
    Ok(row_count(text).div_ceil(height))
}
