// The commands: their names, and how each is used.
ghost use Rattle.std.specs.Prelude.{◌≡◌};

use std::fmt;
use view::list::Entry;

/// A command that changes the current layout.
#[derive(Clone, Copy)]
pub enum Change {
    New,
    Set,
    Permute,
    Diagonal,
    Broadcast,
    Read,
}

/// A command that answers and leaves both layouts.
#[derive(Clone, Copy)]
pub enum Query {
    Bounds,
    Show,
    Draw,
    Offset,
    Normal,
    Verdict,
    Injective,
    Copy,
    Means,
    Record,
    Rest,
    Order,
    Column,
    Row,
    Help,
}

#[derive(Clone, Copy)]
pub enum Command {
    Change(Change),
    /// The current layout is kept as the held one.
    Hold,
    Query(Query),
}

/// Each command, in the order of `help`.
pub const COMMANDS: [Command; 22] = [
    Command::Change(Change::New),
    Command::Query(Query::Bounds),
    Command::Change(Change::Set),
    Command::Query(Query::Show),
    Command::Hold,
    Command::Query(Query::Draw),
    Command::Change(Change::Permute),
    Command::Change(Change::Diagonal),
    Command::Change(Change::Broadcast),
    Command::Query(Query::Offset),
    Command::Query(Query::Normal),
    Command::Query(Query::Verdict),
    Command::Query(Query::Injective),
    Command::Query(Query::Copy),
    Command::Query(Query::Means),
    Command::Query(Query::Record),
    Command::Change(Change::Read),
    Command::Query(Query::Rest),
    Command::Query(Query::Order),
    Command::Query(Query::Column),
    Command::Query(Query::Row),
    Command::Query(Query::Help),
];

impl Command {
    ghost use Rattle.std.specs.Prelude.{◌≢◌, IfNone};
    ghost use Rattle.commands.specs.declared.command.Command.{Command};
    ghost use Rattle.commands.specs.Commands.{name_of, named, usage_of, meaning_of, EachIsNamed};

    /// The word that a line begins with.
    #[tactic(auto, unfolding(crate::specs::Commands::name_of))]
    pub fn name(self) -> &'static str
        ensures { result.now ≡ name_of self }
    {
        match self {
            Command::Change(Change::New) => "new",
            Command::Query(Query::Bounds) => "bounds",
            Command::Change(Change::Set) => "set",
            Command::Query(Query::Show) => "show",
            Command::Hold => "hold",
            Command::Query(Query::Draw) => "draw",
            Command::Change(Change::Permute) => "permute",
            Command::Change(Change::Diagonal) => "diagonal",
            Command::Change(Change::Broadcast) => "broadcast",
            Command::Query(Query::Offset) => "offset",
            Command::Query(Query::Normal) => "normal",
            Command::Query(Query::Verdict) => "verdict",
            Command::Query(Query::Injective) => "injective",
            Command::Query(Query::Copy) => "copy",
            Command::Query(Query::Means) => "means",
            Command::Query(Query::Record) => "record",
            Command::Change(Change::Read) => "read",
            Command::Query(Query::Rest) => "rest",
            Command::Query(Query::Order) => "order",
            Command::Query(Query::Column) => "column",
            Command::Query(Query::Row) => "row",
            Command::Query(Query::Help) => "help",
        }
    }

    // The first command of the list that has a name.
    fn first_named(name: &[u8]) -> Option<Command>
        ensures { result ≡ named name.now }
    {
        COMMANDS
            .iter()
            .copied()
            .find(|command| command.name().as_bytes() == name)
    }

    /// The command with a name, if there is one. Each command is found by its own.
    #[tactic(auto, using(crate::proofs::Named::each, crate::proofs::Named::none))]
    pub fn named(name: &[u8]) -> Option<Command>
        ensures named { result ≡ named name.now }
        ensures each { EachIsNamed }
        ensures none { IfNone result ((command : Command) → name_of command ≢ name.now) }
    {
        Command::first_named(name)
    }

    /// The name with the words that the command takes; those in brackets may be left out.
    #[tactic(auto, unfolding(crate::specs::Commands::usage_of))]
    pub fn usage(self) -> &'static str
        ensures { result.now ≡ usage_of self }
    {
        match self {
            Command::Change(Change::New) => "new LEN OFFSET EXTENTS STRIDES",
            Command::Query(Query::Bounds) => "bounds LEN OFFSET EXTENTS STRIDES",
            Command::Change(Change::Set) => "set LEN OFFSET EXTENTS STRIDES",
            Command::Query(Query::Show) => "show",
            Command::Hold => "hold",
            Command::Query(Query::Draw) => "draw",
            Command::Change(Change::Permute) => "permute LIST",
            Command::Change(Change::Diagonal) => "diagonal PAIRS",
            Command::Change(Change::Broadcast) => "broadcast LIST",
            Command::Query(Query::Offset) => "offset LIST",
            Command::Query(Query::Normal) => "normal",
            Command::Query(Query::Verdict) => "verdict [WORDS]",
            Command::Query(Query::Injective) => "injective EXTENTS STRIDES [WORDS]",
            Command::Query(Query::Copy) => "copy FROM TO [WORDS]",
            Command::Query(Query::Means) => "means AXIS READINGS ROOM",
            Command::Query(Query::Record) => "record ROOM [WORDS]",
            Command::Change(Change::Read) => "read BYTES [WORDS]",
            Command::Query(Query::Rest) => "rest BYTES",
            Command::Query(Query::Order) => "order STRIDES OUTLEN",
            Command::Query(Query::Column) => "column EXTENTS",
            Command::Query(Query::Row) => "row EXTENTS",
            Command::Query(Query::Help) => "help [TOPIC]",
        }
    }

    /// What the command does, or what it answers.
    #[tactic(auto, unfolding(crate::specs::Commands::meaning_of))]
    fn meaning(self) -> &'static str
        ensures { result.now ≡ meaning_of self }
    {
        match self {
            Command::Change(Change::New) => "check a layout in and make it current",
            Command::Query(Query::Bounds) => "check the bounds of a layout; the current one stays",
            Command::Change(Change::Set) => {
                "make a layout current with no check; of more than 16 axes the first 16 are held"
            }
            Command::Query(Query::Show) => "the current layout, as LEN OFFSET EXTENTS STRIDES",
            Command::Hold => "keep the current layout as the held one, for copy",
            Command::Query(Query::Draw) =>
                "the cells that the current layout reaches, each with the positions that share it; at most 200 positions",
            Command::Change(Change::Permute) => "put the axes into the order of the list",
            Command::Change(Change::Diagonal) => "tie the axes of each pair a:b into one",
            Command::Change(Change::Broadcast) =>
                "stretch axes of extent 1 to the extents of the list",
            Command::Query(Query::Offset) => "the offset of an index vector",
            Command::Query(Query::Normal) => "the normal form; the current layout stays",
            Command::Query(Query::Verdict) => {
                "whether two positions of the current layout share a cell, with WORDS words of scratch"
            }
            Command::Query(Query::Injective) =>
                "whether two positions of a layout of these extents and strides share a cell, with WORDS words of scratch",
            Command::Query(Query::Copy) =>
                "copy readings FROM through the current layout into readings TO through the held one; the answer is TO afterwards",
            Command::Query(Query::Means) =>
                "means of READINGS through the current layout along axis AXIS, into at most ROOM readings",
            Command::Query(Query::Record) =>
                "the record of the current layout, in at most ROOM bytes",
            Command::Change(Change::Read) => "read a record and make its layout current",
            Command::Query(Query::Rest) => "what stands behind the record at the front",
            Command::Query(Query::Order) => "the index order of strides, into OUTLEN places",
            Command::Query(Query::Column) => "dense strides, the first axis the densest",
            Command::Query(Query::Row) => "dense strides, the last axis the densest",
            Command::Query(Query::Help) =>
                "what a command does, a word of a usage is, or a refusal means; alone, every command",
        }
    }
}

// A line of `help`.
#[tactic(auto, unfolding(crate::specs::Commands::help_line))]
impl fmt::Display for Command {
    ghost use Rattle.std.specs.Prelude.{Some};
    ghost use Rattle.commands.specs.Commands.{help_line};

    ghost output = { λ command. Some (help_line command) };

    fn fmt<W: fmt::Write>(&self, f: &mut fmt::Formatter<W>) -> fmt::Result {
        write!(f, "{}: {}", self.usage(), self.meaning())
    }
}

impl Entry for Command {
    ghost use Rattle.std.specs.Prelude.{refl};
    ghost use Rattle.commands.specs.Commands.{help_line};

    ghost text = { help_line };

    ghost prints = { λ _. refl };
}
