// What `help` explains, by the word behind it.
ghost use Rattle.std.specs.Prelude.{◌≡◌};

use crate::command::{COMMANDS, Command};
use crate::kind::{KINDS, Kind};
use crate::usage_word::{USAGE_WORDS, UsageWord};
use std::fmt;
use view::list::Joined;

#[derive(Clone, Copy)]
pub enum Topic {
    Command(Command),
    Word(UsageWord),
    /// Every word of a usage.
    Words,
    Refusal(Kind),
    /// Every refusal.
    Refusals,
}

impl Topic {
    ghost use Rattle.std.specs.Prelude.{◌≢◌, IfNone};
    ghost use Rattle.commands.specs.declared.topic.Topic.{Topic};
    ghost use Rattle.commands.specs.Topics.{topic_name, topic_named, EachTopicIsNamed, EachRefusalIsNamed};

    // The topic with a name: a command's first.
    #[tactic(auto, unfolding(crate::specs::Topics::topic_named))]
    fn first_named(name: &[u8]) -> Option<Topic>
        ensures { result ≡ topic_named name.now }
    {
        if let Some(command) = Command::named(name) {
            return Some(Topic::Command(command));
        }
        if name == "refused".as_bytes() {
            return Some(Topic::Refusals);
        }
        if name == "words".as_bytes() {
            return Some(Topic::Words);
        }
        if let Some(kind) = Kind::named(name) {
            return Some(Topic::Refusal(kind));
        }
        UsageWord::named(name).map(Topic::Word)
    }

    /// The topic with a name, if there is one. Each is found by its own, and each refusal by the number that it is answered with.
    #[tactic(auto, using(crate::proofs::Topics::each, crate::proofs::Topics::refusals, crate::proofs::Topics::none))]
    pub fn named(name: &[u8]) -> Option<Topic>
        ensures named { result ≡ topic_named name.now }
        ensures each { EachTopicIsNamed }
        ensures refusals { EachRefusalIsNamed }
        ensures none { IfNone result ((topic : Topic) → topic_name topic ≢ name.now) }
    {
        Topic::first_named(name)
    }
}

// What `help` answers of a topic.
#[tactic(auto, unfolding(crate::specs::Topics::topic_text))]
impl fmt::Display for Topic {
    ghost use Rattle.std.specs.Prelude.{Some};
    ghost use Rattle.commands.specs.Topics.{topic_text};

    ghost output = { λ topic. Some (topic_text topic) };

    fn fmt<W: fmt::Write>(&self, f: &mut fmt::Formatter<W>) -> fmt::Result {
        match self {
            Topic::Command(command) => write!(f, "{command}"),
            Topic::Word(word) => write!(f, "{word}"),
            Topic::Words => write!(
                f,
                "{}",
                Joined {
                    between: "\n",
                    entries: &USAGE_WORDS
                }
            ),
            Topic::Refusal(kind) => write!(f, "{kind}"),
            Topic::Refusals => write!(
                f,
                "{}",
                Joined {
                    between: "\n",
                    entries: &KINDS
                }
            ),
        }
    }
}

/// What `help` alone answers: each command, and where to go on.
#[derive(Clone, Copy)]
pub struct AllHelp;

#[tactic(auto, unfolding(crate::specs::Topics::all_help))]
impl fmt::Display for AllHelp {
    ghost use Rattle.std.specs.Prelude.{Some};
    ghost use Rattle.commands.specs.Topics.{all_help};

    ghost output = { λ _. Some all_help };

    fn fmt<W: fmt::Write>(&self, f: &mut fmt::Formatter<W>) -> fmt::Result {
        let commands = Joined {
            between: "\n",
            entries: &COMMANDS,
        };
        write!(
            f,
            "{commands}\nhelp new, help LIST and help 3 explain a command, a word of a usage, a refusal; help words and help refused explain all words, all refusals\ndocs/COMMANDS.md says more; the program ends when its input ends (at a terminal by Ctrl-D)"
        )
    }
}
