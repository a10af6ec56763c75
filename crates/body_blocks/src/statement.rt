use body_names::{FlatCommand, FlatExpression, FlatGiving, LocalSlot};
use gv_values::Class;
use scenario_tree::Items;
use std::rc::Rc;

/// A statement whose blocks stand beside it in the code, by their numbers.
#[derive(Drop)]
pub struct FlatStatement {
    /// The line on which it stands, or on which its block opens.
    pub line: u32,
    pub action: FlatAction,
}

/// What a statement does. What a body under way has to keep of it is shared, and never copied.
#[derive(Drop)]
pub enum FlatAction {
    Command(FlatCommand),
    /// The local stands before `<-`.
    Giving(Option<LocalSlot>, FlatGiving),
    If(FlatExpression, usize, Option<usize>),
    While(Rc<FlatExpression>, usize),
    /// The body, and what is done with what leaves it.
    Try(usize, Rc<Handlers>),
    /// The time, none where it never fires, and whether it is silent.
    Timeout(Option<u32>, bool, usize),
}

/// What a try does with what leaves its body: its excepts, and its finally.
#[derive(Drop)]
pub struct Handlers {
    pub excepts: Items<FlatExcept>,
    pub finally: Option<usize>,
}

/// One except of a try.
#[derive(Drop)]
pub struct FlatExcept {
    pub line: u32,
    pub class: Class,
    /// The local stands behind the class.
    pub name: Option<LocalSlot>,
    pub body: usize,
}
