// What an obeyed line answers.
use crate::topic::{AllHelp, Topic};
use dense::DenseStrides;
use drawing::drawing::Drawing;
use injectivity::Judgement;
use std::alloc::{AllocError, Global};
use std::fmt;
use view::layout::Layout;
use view::list::List;

#[derive(Drop)]
pub enum Reply {
    Done,
    Current(Layout),
    Drawn(Drawing),
    Offset(i64),
    Judged(Judgement),
    Readings(Vec<i32>),
    Bytes(String),
    Order(Vec<usize>),
    Strides(DenseStrides),
    Help(Topic),
    AllHelp,
}

impl Reply {
    ghost use Rattle.std.specs.Prelude.{◌≡◌, IfOk};
    ghost use Rattle.commands.specs.Replies.{bytes_text, reply_text};

    /// Bytes as two digits each; `-` for none.
    pub fn bytes(alloc: Global, bytes: &[u8]) -> Result<Reply, AllocError>
        ensures { IfOk result (λ reply. reply_text reply ≡ bytes_text bytes.now) }
    {
        if bytes.is_empty() {
            return Ok(Reply::Bytes(String::from_str(alloc, "-")?));
        }
        Ok(Reply::Bytes(hex::encode(alloc, bytes)?))
    }
}

impl fmt::Display for Reply {
    ghost use Rattle.std.specs.Prelude.{Some};
    ghost use Rattle.commands.specs.Replies.{reply_text};

    ghost output = { λ reply. Some (reply_text reply) };

    fn fmt<W: fmt::Write>(&self, f: &mut fmt::Formatter<W>) -> fmt::Result {
        match self {
            Reply::Done => f.write_str("ok"),
            Reply::Current(layout) => write!(f, "{layout}"),
            Reply::Drawn(drawing) => write!(f, "{drawing}"),
            Reply::Offset(offset) => write!(f, "{offset}"),
            Reply::Judged(judgement) => write!(f, "{judgement}"),
            Reply::Readings(readings) => write!(f, "{}", List(readings.as_slice())),
            Reply::Bytes(digits) => f.write_str(digits.as_str()),
            Reply::Order(axes) => write!(f, "{}", List(axes.as_slice())),
            Reply::Strides(dense) => write!(f, "{}", List(dense.as_slice())),
            Reply::Help(topic) => write!(f, "{topic}"),
            Reply::AllHelp => write!(f, "{AllHelp}"),
        }
    }
}
