//! The words of commands.

ghost use Rattle.std.specs.Prelude.{◌≡◌, ◌==◌, length};
ghost use Rattle.std.specs.List.{filter};
ghost use Rattle.control_grammar.specs.CommandWords.{all_command_words, command_name, command_word};

use base_words::{Spelled, find_spelled};

/// A word that is a command.
#[derive(Clone, Copy, Debug, PartialEq, Eq, Drop)]
pub enum CommandWord {
    Found,
    NotFound,
    Fixed,
    NotFixed,
    Close,
    Reopen,
    Severity,
    Tags,
    /// Another word for `Tags`.
    Tag,
    Retitle,
    Submitter,
    Reassign,
    Merge,
    ForceMerge,
    Unmerge,
    Clone,
    Block,
    Unblock,
    Forwarded,
    NotForwarded,
    Owner,
    NoOwner,
    Archive,
    Unarchive,
    Affects,
}

impl CommandWord {
    // The words of commands that have so many bytes.
    fn of_size(size: usize) -> &'static [CommandWord]
        ensures { result.now ≡ filter (λ command. length (command_name command) == size) all_command_words }
    {
        use CommandWord::*;
        match size {
            3 => &[Tag],
            4 => &[Tags],
            5 => &[Found, Fixed, Close, Merge, Clone, Block, Owner],
            6 => &[Reopen],
            7 => &[Retitle, Unmerge, Unblock, NoOwner, Archive, Affects],
            8 => &[NotFound, NotFixed, Severity, Reassign],
            9 => &[Submitter, Forwarded, Unarchive],
            10 => &[ForceMerge],
            12 => &[NotForwarded],
            _ => &[],
        }
    }

    /// The command that a word is, in any ASCII case; `None` where it is none.
    pub fn read(word: &str) -> Option<CommandWord>
        ensures { result ≡ command_word word.now }
    {
        find_spelled(CommandWord::of_size(word.len()), word)
    }

    /// The word, in lower case.
    pub fn name(self) -> &'static str
        ensures { result.now ≡ command_name self }
    {
        match self {
            CommandWord::Found => "found",
            CommandWord::NotFound => "notfound",
            CommandWord::Fixed => "fixed",
            CommandWord::NotFixed => "notfixed",
            CommandWord::Close => "close",
            CommandWord::Reopen => "reopen",
            CommandWord::Severity => "severity",
            CommandWord::Tags => "tags",
            CommandWord::Tag => "tag",
            CommandWord::Retitle => "retitle",
            CommandWord::Submitter => "submitter",
            CommandWord::Reassign => "reassign",
            CommandWord::Merge => "merge",
            CommandWord::ForceMerge => "forcemerge",
            CommandWord::Unmerge => "unmerge",
            CommandWord::Clone => "clone",
            CommandWord::Block => "block",
            CommandWord::Unblock => "unblock",
            CommandWord::Forwarded => "forwarded",
            CommandWord::NotForwarded => "notforwarded",
            CommandWord::Owner => "owner",
            CommandWord::NoOwner => "noowner",
            CommandWord::Archive => "archive",
            CommandWord::Unarchive => "unarchive",
            CommandWord::Affects => "affects",
        }
    }
}

impl Spelled for CommandWord {
    ghost spelled = { command_name };

    fn spelled(&self) -> &'static str {
        self.name()
    }
}
