//! The words of the help.

/// What the program is.
pub(crate) const ABOUT: &str = "A bug desk with the control commands of the Debian BTS.";

/// How a command line is written.
pub(crate) const USAGE: &str = "bts [--OPTION=VALUE]... [COMMAND]";

/// The commands, the words of a message, and examples.
pub(crate) const COMMANDS: &str = "\
Commands:
  none, or run   Carries out the script on standard input (--store)
  init           Makes the file of a new desk (--store, --first)
  serve          Answers HTTP on 127.0.0.1 (--port, --store, --count)
  other words    Sends them as one message, as bts(1) does (--store, --from, --id)

Options stand before the command, and a value follows `=`: --store=desk, not --store desk.
`init` needs --store, `serve` needs --port, and other words need --store and --from.

Words of a message (N, M are bugs, V is a version; `,` or `.` ends a command, `it` is the last bug):
  found N [V], notfound N V          Marks a version that has the bug, or unmarks it
  fixed N V, notfixed N V            The same of a version that fixes it
  close N [V], reopen N [WHO]        Closes it, as fixed in a version; opens it again
  severity N LEVEL                   critical, grave, serious, important, normal, minor, wishlist
  tags N [+|-|=] TAG...              Adds tags, takes them away, or sets them
  affects N [+|-|=] PACKAGE...       The same of other packages that list it
  retitle N TEXT, submitter N WHO    Its title; who sent it (`!` is the sender)
  owner N WHO, noowner N             Who works on it
  forwarded N TEXT, notforwarded N   Where it was forwarded to
  reassign N PACKAGE [V]             It is a bug of another package
  merge N M..., forcemerge N M...    Merges bugs that agree; makes those of one package agree
  unmerge N, clone N -1...           Takes it out of these; copies it, named -1
  block N by M..., unblock N by M... It waits for others, or no longer
  archive N, unarchive N             Hides it from lists, or no longer

Examples:
  bts --store=desk.db init
  echo @report foo 1.0-1 normal crashes at start | bts --store=desk.db
  bts --store=desk.db --from=ann severity 1 grave , tags it + patch";

/// What `--store` gives.
pub(crate) const STORE: &str = "The file of the desk; `run` and `serve` need none";

/// What `--from` gives.
pub(crate) const FROM: &str = "The sender of the message, a text of 1 to 200 bytes";

/// What `--id` gives.
pub(crate) const ID: &str =
    "An id of the message, 1 to 100 visible characters: sent again, each line acts once";

/// What `--port` gives.
pub(crate) const PORT: &str = "The port, 1 to 65535";

/// What `--count` gives.
pub(crate) const COUNT: &str = "Ends after so many connections, 1 to 1000000 [default: 1000000]";

/// What `--first` gives.
pub(crate) const FIRST: &str = "The number of the first bug, 1 to 999999999 [default: 1]";
