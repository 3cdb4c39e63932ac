// The calls that a list may have.
ghost use Rattle.recorded.specs.InnerCases.{Decodes};

// A call, in the order of the numbers that a list has for them.
#[derive(Clone, Copy, PartialEq, Eq)]
pub enum Operation {
    Check,
    Console,
    Html,
    HtmlStrict,
    Markdown,
    Roff,
    Write,
    Open,
    Close,
    Doc,
    EmDoc,
    Split,
    NextChunk,
    Tabstop,
    Join,
    Unjoin,
    JoinedCheck,
    JoinedConsole,
    JoinedHtml,
    JoinedHtmlStrict,
    JoinedMarkdown,
    JoinedRoff,
    Merge,
}

// A number that no call has.
#[derive(Clone, Copy)]
pub struct UnknownCall(pub u8);

impl TryFrom<u8> for Operation {
    type Error = UnknownCall;

    ghost try_from_gives = { Decodes };

    fn try_from(number: u8) -> Result<Self, UnknownCall> {
        match number {
            0 => Ok(Operation::Check),
            1 => Ok(Operation::Console),
            2 => Ok(Operation::Html),
            3 => Ok(Operation::HtmlStrict),
            4 => Ok(Operation::Markdown),
            5 => Ok(Operation::Roff),
            6 => Ok(Operation::Write),
            7 => Ok(Operation::Open),
            8 => Ok(Operation::Close),
            9 => Ok(Operation::Doc),
            10 => Ok(Operation::EmDoc),
            11 => Ok(Operation::Split),
            12 => Ok(Operation::NextChunk),
            13 => Ok(Operation::Tabstop),
            14 => Ok(Operation::Join),
            15 => Ok(Operation::Unjoin),
            16 => Ok(Operation::JoinedCheck),
            17 => Ok(Operation::JoinedConsole),
            18 => Ok(Operation::JoinedHtml),
            19 => Ok(Operation::JoinedHtmlStrict),
            20 => Ok(Operation::JoinedMarkdown),
            21 => Ok(Operation::JoinedRoff),
            22 => Ok(Operation::Merge),
            _ => Err(UnknownCall(number)),
        }
    }
}
