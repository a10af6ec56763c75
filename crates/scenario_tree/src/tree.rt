use gv_values::{Arith, Class, FaultKind, JobKind, Name};
use sqlite_items::{Boxed, Items};

/// An operator of two operands, which are both evaluated.
#[derive(Clone, Copy, Debug, PartialEq, Eq)]
pub enum Binary {
    Arithmetic(Arith),
    Equal,
    NotEqual,
    Less,
    AtMost,
    Push,
    At,
}

/// An operator of one operand.
#[derive(Clone, Copy, Debug, PartialEq, Eq)]
pub enum Unary {
    Not,
    Length,
    Ready,
    Successful,
    Value,
    Exception,
}

/// What is asked of an object by its name.
#[derive(Clone, Copy, Debug, PartialEq, Eq)]
pub enum Query {
    IsSet,
    Counter,
    QueueSize,
    Unfinished,
    Members,
}

/// What a statement evaluates: from left to right, and its first fault is the expression's.
#[derive(Drop)]
pub enum Expression {
    Nothing,
    Bool(bool),
    Int(i64),
    Local(Name),
    /// `self`, the current greenlet.
    Current,
    Fault(FaultKind),
    Unary(Unary, Boxed<Expression>),
    Binary(Binary, Boxed<Expression>, Boxed<Expression>),
    /// The second operand is not evaluated where the first decides.
    And(Boxed<Expression>, Boxed<Expression>),
    Or(Boxed<Expression>, Boxed<Expression>),
    List(Items<Expression>),
    Query(Query, Name),
}

/// How long a statement waits, WAIT in the language: until it is served, at most so long, or not at
/// all.
///
/// A statement that can't say all three has less, `Timed`, or in a `gkill` whether `now` stands
/// there: no tree has a `now` or a `within` where no text has one. A request has `Wait` for each,
/// since the hub lets all of them wait alike.
#[derive(Clone, Copy, Debug, PartialEq, Eq)]
pub enum Wait {
    Block,
    Within(u32),
    Now,
}

/// How long a statement waits that can't say `now`, TIMED in the language: the time of `within`,
/// none where it waits until it is served.
pub type Timed = Option<u32>;

/// A statement of one line that gives no value.
#[derive(Drop)]
pub enum Command {
    Print(Expression),
    Let(Name, Expression),
    Return(Expression),
    Raise(Expression),
    Start(Expression),
    Sleep(u32),
    Join(Expression, Timed),
    /// The fault stands after `with`.
    Kill(Expression, Option<Expression>, Wait),
    KillAll(Expression, Option<Expression>, Wait),
    Unlink(Expression),
    Set(Name),
    Clear(Name),
    ResultSet(Name, Expression),
    ResultFail(Name, Expression),
    Release(Name),
    QueuePut(Name, Expression, Wait),
    QueueDone(Name),
    GroupJoin(Name, Timed),
    /// The fault, and whether `now` stands there.
    GroupKill(Name, Option<Expression>, bool),
    SetParent(Expression, Expression),
    ChannelPut(Name, Expression),
    /// Whether `immediate` stands there.
    QueueShut(Name, bool),
}

/// Which end of its greenlet a link names.
#[derive(Clone, Copy, Debug, PartialEq, Eq)]
pub enum LinkEnd {
    Any,
    Value,
    Fault,
}

/// A statement of one line that gives a value, which a name may take.
#[derive(Drop)]
pub enum Giving {
    Spawn(Name, Items<Expression>),
    SpawnLater(u32, Name, Items<Expression>),
    New(Name, Items<Expression>),
    Get(Expression, Wait),
    /// The number stands after `count`.
    JoinAll(Expression, Option<u64>, Timed),
    Link(LinkEnd, Expression, Name),
    /// The mark is at most `scenario_grammar::MOST_MARK`.
    LinkMark(Expression, u32),
    LinkSet(Expression, Name),
    WaitEvent(Name, Timed),
    ResultGet(Name, Wait),
    ResultWait(Name, Timed),
    Acquire(Name, Wait),
    QueueGet(Name, Wait),
    QueuePeek(Name, Wait),
    QueueJoin(Name, Timed),
    GroupSpawn(Name, Name, Items<Expression>),
    Map(Name, Name, Expression),
    /// The time stands after `takes`.
    NativeSpawn(Name, JobKind, Expression, Option<u64>),
    /// The greenlet stands after `under`.
    Raw(Name, Option<Expression>),
    Switch(Expression, Expression),
    /// The fault stands after `with`.
    Throw(Expression, Option<Expression>),
    ChannelGet(Name),
}

/// The lines of a body or of a block.
pub type Block = Items<Statement>;

/// A statement and the number of the line on which it stands, or on which its block opens.
#[cycle(statements)]
#[derive(Drop)]
pub struct Statement {
    pub line: u32,
    pub action: Action,
}

/// What a statement does: a line alone, or a block with its parts.
#[cycle(statements)]
#[derive(Drop)]
pub enum Action {
    Command(Command),
    /// The name stands before `<-`.
    Giving(Option<Name>, Giving),
    If(Expression, Items<Statement>, Option<Items<Statement>>),
    While(Expression, Items<Statement>),
    /// The body, the excepts and the finally.
    Try(Items<Statement>, Items<Except>, Option<Items<Statement>>),
    /// The time, none where it never fires, and whether it is silent.
    Timeout(Option<u32>, bool, Items<Statement>),
}

/// An except of a `try`: the faults that it catches, the name that takes the fault, and its body.
#[cycle(statements)]
#[derive(Drop)]
pub struct Except {
    pub line: u32,
    pub class: Class,
    pub name: Option<Name>,
    pub body: Items<Statement>,
}

/// The order in which a queue gives its items; `Join` is first in, first out, and counts unfinished
/// tasks.
#[derive(Clone, Copy, Debug, PartialEq, Eq)]
pub enum QueueKind {
    Fifo,
    Lifo,
    Priority,
    Join,
}

/// An object as its declaration makes it; a number is the initial count, the size or the slots.
#[derive(Clone, Copy, Debug, PartialEq, Eq)]
pub enum Object {
    Event,
    Result,
    Semaphore(u64),
    BoundedSemaphore(u64),
    Lock,
    /// The size, none where it has no bound.
    Queue(QueueKind, Option<u64>),
    Group,
    Pool(u64),
    Native(u64),
    /// Of profile 2.
    Channel,
}

/// The declaration of an object, with the number of its line.
#[derive(Clone, Copy, Debug, PartialEq, Eq)]
pub struct Declaration {
    pub line: u32,
    pub name: Name,
    pub object: Object,
}

/// A function, or a body of raw greenlets, with the number of the line on which it begins.
#[derive(Drop)]
pub struct Function {
    pub line: u32,
    /// Whether it is a body of raw greenlets.
    pub is_raw: bool,
    pub name: Name,
    pub parameters: Items<Name>,
    pub body: Block,
}

/// A scenario: its profile, 1, 2 or 3 where it has a text, its objects, and its functions, in the order
/// in which they are declared.
#[derive(Drop)]
pub struct Scenario {
    pub profile: u8,
    pub objects: Items<Declaration>,
    pub functions: Items<Function>,
}
