//! The options and the commands as one table, and the words that `clap` makes of it.

use clap::{Arg, ArgAction, Command as Words, value_parser};
use std::alloc::{AllocError, Global};

/// What an argument is.
#[derive(Clone, Copy)]
enum Kind {
    /// A text that has to be there.
    Place,
    /// A number that has to be there.
    Count,
    /// One text or several.
    Places,
    /// An option that is there or not.
    Flag,
    /// An option with a text, of this name.
    Text(&'static str),
    /// An option with a number.
    Number,
    /// An option with a number that has to be there.
    Needed,
}

/// An argument: its name, what it is, what it is where it is not given, "" for nothing, and its help.
type Argument = (&'static str, Kind, &'static str, &'static str);

/// A command: its name, what it does, an example, and its arguments.
type Row = (
    &'static str,
    &'static str,
    &'static str,
    &'static [Argument],
);

/// The options that stand before a command.
const OPTIONS: &[Argument] = &[
    (
        "root",
        Kind::Text("DIR"),
        "",
        "The folder below which the object's files lie, which is there [env: TXNOBJ_ROOT]",
    ),
    (
        "name",
        Kind::Text("NAME"),
        "",
        "The object's name, of 225 bytes at most, letters, digits, `-`, `_` and `.`: its versions lie in DIR/NAME [env: TXNOBJ_NAME]",
    ),
    (
        "suffix",
        Kind::Text("SUFFIX"),
        "val",
        "What the names of the versions' files end with",
    ),
    (
        "client",
        Kind::Number,
        "",
        "The client's number, at least 1 [default: one of its own]",
    ),
    (
        "diary",
        Kind::Text("FILE"),
        "",
        "Add a recording of what is done to this file, for an audit [env: TXNOBJ_DIARY]",
    ),
    (
        "no-sync",
        Kind::Flag,
        "",
        "Do not wait until what is written lasts: a cut of power then loses answered writes, and can leave a newest version that is no value, on which nothing goes on before `repair`",
    ),
];

const VALUE: Argument = (
    "VALUE",
    Kind::Place,
    "",
    "The value's bytes; `-` is the standard input, `@FILE` a file",
);

const ID: Argument = ("ID", Kind::Count, "", "The id");

const CLOCK_ERROR: Argument = (
    "clock-error",
    Kind::Number,
    "1000",
    "By how many milliseconds each clock of another machine may be off from that of the first recording",
);

const FROM: Argument = (
    "from",
    Kind::Number,
    "",
    "Draw the store calls of their order from the one of this number on, the first of which is 1",
);

const CALLS: Argument = (
    "calls",
    Kind::Number,
    "",
    "Draw so many store calls at most",
);

const DIARIES: Argument = ("DIARY", Kind::Places, "", "The files of the recordings");

const COMMANDS: &[Row] = &[
    (
        "init",
        "Write the first version, in epoch 0; print its id",
        "Example: txnobj --root /srv/meta --name leader init nobody",
        &[VALUE],
    ),
    (
        "put",
        "Write a version on the newest, in its epoch whoever claimed that, again after a conflict; print its id",
        "Example: txnobj --root /srv/meta --name leader put @leader.json",
        &[
            VALUE,
            (
                "base",
                Kind::Number,
                "",
                "Only if this is the newest version",
            ),
            (
                "epoch",
                Kind::Number,
                "",
                "Only while this epoch is the newest version's: fenced where that has a greater one",
            ),
        ],
    ),
    (
        "claim",
        "Write the newest value once more in the next epoch, which shuts older holders out; print ID EPOCH",
        "Example: read -r id epoch < <(txnobj --root /srv/meta --name leader claim)",
        &[(
            "epoch",
            Kind::Number,
            "",
            "Claim this epoch: fenced where it or a greater one stands",
        )],
    ),
    (
        "get",
        "Print the newest version's bytes, and nothing else",
        "Example: txnobj --root /srv/meta --name leader get > leader.json",
        &[("id", Kind::Flag, "", "Print ID EPOCH, and not the bytes")],
    ),
    (
        "list",
        "Print the ids of the stored versions, one a line",
        "Example: txnobj --root /srv/meta --name leader list",
        &[],
    ),
    (
        "history",
        "Print ID EPOCH:BYTES of each stored version, a line each, each byte that is no graphic ASCII character, and `%`, as %XX",
        "Example: txnobj --root /srv/meta --name leader history",
        &[],
    ),
    (
        "watch",
        "Wait for a version above an id; print ID EPOCH of the newest",
        "Example: txnobj --root /srv/meta --name leader watch --after 7 --seconds 3600",
        &[
            ("after", Kind::Needed, "", "The id"),
            ("seconds", Kind::Number, "60", "How long to wait"),
        ],
    ),
    (
        "advance",
        "Raise the boundary to an id below the newest: what is at or below it may be deleted",
        "Example: txnobj --root /srv/meta --name leader advance 6",
        &[ID],
    ),
    (
        "delete",
        "Remove a version at or below the boundary",
        "Example: txnobj --root /srv/meta --name leader delete 3",
        &[ID],
    ),
    (
        "collect",
        "Remove all versions below the newest, whoever claimed an epoch; print how many it found",
        "Example: txnobj --root /srv/meta --name leader collect",
        &[],
    ),
    (
        "shell",
        "Read calls from the standard input, a line each, and print their answers: for a process that keeps a view or an epoch",
        "Example: printf 'load\\nclaim 1\\nholder_refresh 1\\n' | txnobj --root /srv/meta --name leader shell",
        &[],
    ),
    (
        "doctor",
        "Test whether the file system of a folder that is there can carry an object",
        "Example: txnobj --root /srv/meta doctor --beside /mnt/meta",
        &[(
            "beside",
            Kind::Text("DIR"),
            "",
            "Test too what another mount of the same folder shows of what is done through this one, and the other way round",
        )],
    ),
    (
        "clean",
        "Remove old temporary files, as writers leave that are killed; print how many",
        "Example: txnobj --root /srv/meta --name leader clean 3600",
        &[(
            "SECONDS",
            Kind::Count,
            "",
            "Only those that are older: more than any write takes, since one that still goes on fails, without effect",
        )],
    ),
    (
        "repair",
        "After a cut of power with --no-sync, while nobody else writes: remove the versions above the newest that is a value, which are torn, and print their ids, and at which the object goes on; a write that was answered with a greater id is lost",
        "Example: txnobj --root /srv/meta --name leader repair",
        &[],
    ),
    (
        "bench",
        "Add one to a number again and again, in an object of its own, by the store's calls alone; print how long each took",
        "Example: txnobj --root /dev/shm/bench --name number --no-sync bench 10000",
        &[
            ("TIMES", Kind::Count, "", "How often"),
            (
                "list",
                Kind::Flag,
                "",
                "List all versions of any object, and add nothing",
            ),
        ],
    ),
    (
        "audit",
        "Hold recordings of clients against each other: whether they are one history",
        "Example: txnobj audit a.diary b.diary",
        &[CLOCK_ERROR, DIARIES],
    ),
    (
        "trace",
        "Draw recordings of clients as text, in the order of an audit, with what that says",
        "Example: txnobj trace a.diary b.diary",
        &[CLOCK_ERROR, FROM, CALLS, DIARIES],
    ),
    (
        "picture",
        "Draw recordings of clients as one picture in SVG, in the order of an audit, with what that says",
        "Example: txnobj picture --from 101 --calls 50 a.diary b.diary > part.svg",
        &[CLOCK_ERROR, FROM, CALLS, DIARIES],
    ),
];

const STATUSES: &str =
    "Statuses: 0 done; 1 a fault of the system or of the folder, or no memory, where a write may have taken effect; 2 wrong words, a recording that another process writes, or an object that is not bench's own; 3 nothing new to see, or a folder that does not serve; 4 an audit that does not agree; 5 a repair of an object of which nothing is torn; 6 a repair that leaves no version to go on at; 12 the store failed at no known step; 14 there is no version; 15 a conflict; 16 fenced; 17 not in this state; 18 bytes that are no value; 19 no memory; 20 no id or epoch is left; 21 no end in sight: others write all the time, or the boundary stands at or above the newest version; 30 + n the client does not permit the call, by fault n";

impl Kind {
    /// Whether it has to be there.
    fn is_required(self) -> bool {
        matches!(
            self,
            Kind::Place | Kind::Count | Kind::Places | Kind::Needed
        )
    }

    /// Whether it stands after its name, and not in a place of its own.
    fn is_option(self) -> bool {
        matches!(
            self,
            Kind::Flag | Kind::Text(_) | Kind::Number | Kind::Needed
        )
    }
}

/// An argument as what it is.
fn of_kind<'a>(arg: Arg<'a>, kind: Kind) -> Arg<'a> {
    match kind {
        Kind::Place => arg,
        Kind::Places => arg.num_args(1..).action(ArgAction::Append),
        Kind::Flag => arg.action(ArgAction::SetTrue),
        Kind::Text(name) => arg.value_name(name),
        Kind::Count | Kind::Number | Kind::Needed => arg.value_parser(value_parser!(u64)),
    }
}

/// An argument under its name, where it is an option.
fn named<'a>(arg: Arg<'a>, id: &'static str, kind: Kind) -> Arg<'a> {
    if kind.is_option() {
        return arg.long(id);
    }
    arg
}

fn argument<'a>(alloc: Global, row: &Argument) -> Arg<'a> {
    let (id, kind, default, help) = *row;
    let arg = Arg::new(alloc, id).help(help).required(kind.is_required());
    let arg = of_kind(named(arg, id, kind), kind);
    if default.is_empty() {
        return arg;
    }
    arg.default_value(default)
}

/// A row of a table, which says what is added to words.
trait Added {
    fn add_to<'a>(&self, alloc: Global, words: Words<'a>) -> Result<Words<'a>, AllocError>;
}

fn with_each<'a, X: Added>(
    alloc: Global,
    words: Words<'a>,
    rows: &[X],
) -> Result<Words<'a>, AllocError> {
    let mut words = words;
    for row in rows {
        words = row.add_to(alloc, words)?;
    }
    Ok(words)
}

impl Added for Argument {
    fn add_to<'a>(&self, alloc: Global, words: Words<'a>) -> Result<Words<'a>, AllocError> {
        words.arg(argument(alloc, self))
    }
}

impl Added for Row {
    fn add_to<'a>(&self, alloc: Global, words: Words<'a>) -> Result<Words<'a>, AllocError> {
        let (name, about, example, arguments) = *self;
        let command = Words::new(alloc, name).about(about).after_help(example);
        words.subcommand(with_each(alloc, command, arguments)?)
    }
}

/// The words that `clap` reads: all options and commands.
pub(crate) fn words_of<'a>(alloc: Global) -> Result<Words<'a>, AllocError> {
    let words = Words::new(alloc, "txnobj")
        .about(
            "One object in a shared folder, kept as numbered versions that many processes update by compare and swap",
        )
        .after_help(STATUSES)
        .subcommand_required(true);
    let words = with_each(alloc, words, OPTIONS)?;
    with_each(alloc, words, COMMANDS)
}
