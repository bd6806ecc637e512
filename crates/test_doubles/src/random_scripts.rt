//! Random scripts: lines of all kinds about a few bugs, packages and versions.

use rand_core::utils::NextWord;
use rand_pcg::Pcg32;
use std::alloc::{AllocError, Global};

const PACKAGES: [&str; 6] = ["foo", "foo", "foo", "foo", "bar", "libfoo1"];

/// Some of them are equal in the order of versions: `1.0` and `1.0-0`, and `2`, `0:2` and `2-0`.
const VERSIONS: [&str; 8] = [
    "1.0~rc1", "1.0", "1.0-0", "1.0-1", "2", "0:2", "2-0", "1:0.5",
];

const NAMES: [&str; 4] = ["ann", "ben", "Cleo <cleo@d.example>", "!"];

const TITLES: [&str; 4] = [
    "crashes",
    "loses the last line",
    "é, in UTF-8",
    "needs a manual",
];

const SEVERITIES: [&str; 7] = [
    "normal", "normal", "normal", "grave", "Minor", "wishlist", "critical",
];

const TAGS: [&str; 9] = [
    "patch",
    "+patch",
    "-patch",
    "=",
    "= help",
    "moreinfo",
    "- patch help",
    "wontfix,",
    "l10n",
];

const AFFECTED: [&str; 10] = [
    "bar",
    "+bar",
    "libfoo1, foo",
    "+ src:bar nobody",
    "-bar",
    "- foo libfoo1",
    "=",
    "= libfoo1",
    ",",
    "-",
];

const STOPS: [&str; 3] = ["thanks", "quit", "--"];

const COMMANDS: [&str; 43] = [
    "found",
    "found",
    "found",
    "found",
    "notfound",
    "notfound",
    "fixed",
    "fixed",
    "fixed",
    "notfixed",
    "close",
    "close",
    "close",
    "reopen",
    "reopen",
    "reassign",
    "severity",
    "severity",
    "tags",
    "tag",
    "retitle",
    "forwarded",
    "notforwarded",
    "submitter",
    "owner",
    "noowner",
    "merge",
    "merge",
    "merge",
    "forcemerge",
    "forcemerge",
    "unmerge",
    "unmerge",
    "clone",
    "block",
    "block",
    "unblock",
    "archive",
    "archive",
    "unarchive",
    "affects",
    "affects",
    "affects",
];

const WRONG: [&str; 28] = [
    "severity 1",
    "severity 1 worse",
    "found 1 1_0",
    "found 99 1",
    "fixed 1",
    "close x",
    "close 1 foo/",
    "merge 1",
    "merge 1 99",
    "unmerge 99",
    "tags 1 nosuch",
    "tags 1",
    "block 1 2",
    "block 1 by 1",
    "clone 1 1",
    "clone 1",
    "frobnicate 1",
    "reassign 1 F",
    "owner 1",
    "archive -9",
    "@report foo 1 normal",
    "@report F 1 normal a title",
    "@branch",
    "@branch foo",
    "@branch foo/1 foo/1",
    "@list foo 1_0",
    "@show x",
    "@from",
];

/// Makes random scripts, one after another.
#[derive(Drop)]
pub struct ScriptMaker {
    random: Pcg32,
    // How many bugs there may be, and how many names the message has given.
    bugs: u32,
    names: u32,
    script: String,
}

impl ScriptMaker {
    pub fn new(alloc: Global, seed: u64) -> ScriptMaker {
        ScriptMaker {
            random: Pcg32::new(seed, 1),
            bugs: 0,
            names: 0,
            script: String::new(alloc),
        }
    }

    // A number below a bound; 0 where that is 0.
    fn below(&mut self, bound: u32) -> u32 {
        let word = self.random.next_word();
        if bound == 0 { 0 } else { word % bound }
    }

    // Whether something happens that does so once in so many times.
    fn once_in(&mut self, times: u32) -> bool {
        self.below(times) == 0
    }

    fn pick(&mut self, words: &[&'static str]) -> &'static str {
        let place = self.below(u32::try_from(words.len()).unwrap_or(0));
        match words.get(place as usize) {
            Some(word) => word,
            None => "",
        }
    }

    // Adds a blank and one of the words.
    fn add_one_of(&mut self, words: &[&'static str]) -> Result<(), AllocError> {
        let word = self.pick(words);
        write!(self.script, " {word}")
    }

    // Adds a bug by its number, or by a name.
    fn add_bug(&mut self) -> Result<(), AllocError> {
        if self.names > 0 && self.once_in(4) {
            let name = self.below(self.names);
            return write!(self.script, " -{}", name.saturating_add(1));
        }
        let last = if self.once_in(30) {
            13
        } else {
            self.bugs.clamp(1, 12)
        };
        let number = self.below(last);
        write!(self.script, " {}", number.saturating_add(1))
    }

    // Adds some bugs.
    fn add_bugs(&mut self, most: u32) -> Result<(), AllocError> {
        for _ in 0..self.below(most).saturating_add(1) {
            self.add_bug()?;
        }
        Ok(())
    }

    // Adds a version, with its source or without.
    fn add_version(&mut self) -> Result<(), AllocError> {
        if self.once_in(4) {
            return self.add_node();
        }
        self.add_one_of(&VERSIONS)
    }

    // Adds a version with its source.
    fn add_node(&mut self) -> Result<(), AllocError> {
        let source = self.pick(&PACKAGES);
        let version = self.pick(&VERSIONS);
        write!(self.script, " {source}/{version}")
    }

    // Adds a version, or not.
    fn may_add_version(&mut self) -> Result<(), AllocError> {
        if self.once_in(3) {
            Ok(())
        } else {
            self.add_version()
        }
    }

    // Adds names of clones.
    fn add_names(&mut self) -> Result<(), AllocError> {
        for _ in 0..self.below(2).saturating_add(1) {
            self.names = self.names.saturating_add(1);
            self.bugs = self.bugs.saturating_add(1);
            write!(self.script, " -{}", self.names)?;
        }
        Ok(())
    }

    // Adds what follows the bug in a command.
    fn add_rest(&mut self, word: &str) -> Result<(), AllocError> {
        match word {
            "found" | "close" => self.may_add_version(),
            "notfound" | "fixed" | "notfixed" => self.add_version(),
            "reopen" => self.add_one_of(&["", "", "=", "ben", "!"]),
            "severity" => self.add_one_of(&SEVERITIES),
            "tags" | "tag" => self.add_one_of(&TAGS),
            "affects" => self.add_one_of(&AFFECTED),
            "retitle" | "forwarded" => self.add_one_of(&TITLES),
            "submitter" | "owner" => self.add_one_of(&NAMES),
            "merge" | "forcemerge" => self.add_bugs(3),
            "clone" => self.add_names(),
            "reassign" => {
                self.add_one_of(&PACKAGES)?;
                self.may_add_version()
            }
            "block" | "unblock" => {
                self.script.push_str(" by")?;
                self.add_bugs(3)
            }
            _ => Ok(()),
        }
    }

    fn add_command(&mut self) -> Result<(), AllocError> {
        let word = self.pick(&COMMANDS);
        self.script.push_str(word)?;
        self.add_bug()?;
        self.add_rest(word)
    }

    // Begins a directive, which ends the message.
    fn begin(&mut self, word: &str) -> Result<(), AllocError> {
        self.names = 0;
        self.script.push_str(word)
    }

    fn add_report(&mut self) -> Result<(), AllocError> {
        self.bugs = self.bugs.saturating_add(1);
        self.begin("@report")?;
        self.add_one_of(&PACKAGES)?;
        if self.once_in(3) {
            self.script.push_str(" -")?;
        } else {
            self.add_one_of(&VERSIONS)?;
        }
        self.add_one_of(&SEVERITIES)?;
        self.add_one_of(&TITLES)
    }

    fn add_branch(&mut self) -> Result<(), AllocError> {
        self.begin("@branch")?;
        for _ in 0..self.below(4).saturating_add(1) {
            self.add_node()?;
        }
        Ok(())
    }

    fn add_list(&mut self) -> Result<(), AllocError> {
        self.begin("@list")?;
        self.add_one_of(&PACKAGES)?;
        self.add_version()
    }

    fn add_show(&mut self) -> Result<(), AllocError> {
        self.begin("@show")?;
        let number = self.below(12);
        write!(self.script, " {}", number.saturating_add(1))
    }

    fn add_from(&mut self) -> Result<(), AllocError> {
        self.begin("@from")?;
        self.add_one_of(&NAMES)
    }

    // Adds a line that is mostly wrong.
    fn add_wrong(&mut self) -> Result<(), AllocError> {
        let line = self.pick(&WRONG);
        if line.starts_with("@") {
            self.names = 0;
        }
        self.script.push_str(line)
    }

    // Adds a line of some kind, without its end.
    fn add_line(&mut self) -> Result<(), AllocError> {
        match self.below(100) {
            0..10 => self.add_report(),
            10..18 => self.add_branch(),
            18..23 => self.add_list(),
            23..28 => self.add_show(),
            28..31 => self.add_from(),
            31..41 => self.add_wrong(),
            41 => {
                let word = self.pick(&STOPS);
                self.script.push_str(word)
            }
            42 => self.script.push_str("# a comment"),
            _ => self.add_command(),
        }
    }

    // Adds the lines with which a script begins: an empty one, a sender and two reports.
    fn add_first(&mut self) -> Result<(), AllocError> {
        self.script.push_str("\n@from ann\n")?;
        self.add_report()?;
        self.script.push_str("\n")?;
        self.add_report()?;
        self.script.push_str("\n")
    }

    /// The next script: an empty line, and then so many lines, of which the first is a directive.
    pub fn next_script(&mut self, lines: u64) -> Result<&str, AllocError> {
        self.script.clear();
        self.bugs = 0;
        self.add_first()?;
        for _ in 3..lines {
            self.add_line()?;
            self.script.push_str("\n")?;
        }
        Ok(self.script.as_str())
    }
}
