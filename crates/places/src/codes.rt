// The codes of the answers that tell a team where to go, as numbers to match an answer's code with.
use rules::Refusal;

pub(crate) const GRANTED: u32 = 0;

pub(crate) const NO_SUCH_NODE: u32 = Refusal::NoSuchNode as u32;

pub(crate) const STOLEN: u32 = Refusal::Stolen as u32;

pub(crate) const NO_ROOM: u32 = Refusal::NoRoom as u32;

pub(crate) const ALREADY_SPLIT: u32 = Refusal::AlreadySplit as u32;
