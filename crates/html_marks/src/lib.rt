// What HTML and Markdown (src/buffer/html.rs) share: lines of their own.

#![tactic(auto)]

ghost use Rattle.std.specs.Prelude.{◌≡◌};
ghost use Rattle.room.specs.Lent.{text_of, wrote};
ghost use Rattle.html_rules.specs.Marks.{separated};

use room::Text;

// blank_html_line, blank_markdown_line, new_markdown_line.
pub fn separate(t: &mut Text, mark: &[u8])
    ensures { text_of t.new ≡ wrote (λ size. separated size mark.now) (text_of t.old) }
{
    if !t.is_empty() && !t.ends_with(mark) {
        t.put_all(mark);
    }
}
