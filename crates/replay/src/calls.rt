// A call as a value, and what a call gives as a value.
use colour::refusal::Refusal;
use colour::{Query, Sample, Settings};
use query::answers::Reply;
use samples::answers::Stop;

// A call that changes a set. The sheet of a load is lent beside it.
#[derive(Clone, Copy)]
pub enum Changing {
    Load,
    Add(Sample),
    Remove(u32),
}

// Any call. The listing of a query is lent beside it.
#[derive(Clone, Copy)]
pub enum Call {
    Clear(Settings),
    Change(Changing),
    Ask(Query),
}

// What a call gives back besides the tables and the listing, as the call of its kind answers: a clear, an add or a remove; a load; a query.
#[derive(Clone, Copy)]
pub enum Given {
    Changed(Result<(), Refusal>),
    Loaded(Result<u32, Stop>),
    Replied(Result<Reply, Refusal>),
}
