//! A program as the machine runs it: its methods, the bodies of its threads, and the shape of its classes.
use crate::Block;
use dso_base::{Grade, Items, Shape, ThreadId};

/// A method: the number of its class, how many parameters and how many variables it has, and its statements.
///
/// The parameters are the first of the variables. `named` is the named lock that a call takes, `synced` the level at
/// which it takes the object's monitor.
#[derive(Debug, Drop)]
pub struct Method {
    pub class: u32,
    pub params: u32,
    pub vars: u32,
    pub named: Option<(u32, Grade)>,
    pub synced: Option<Grade>,
    pub body: Block,
}

/// What a thread runs, with how many variables.
#[derive(Debug, Drop)]
pub struct ThreadBody {
    pub thread: ThreadId,
    pub vars: u32,
    pub body: Block,
}

/// A program as the machine runs it. Methods are numbered over all classes, in the order of the text.
#[derive(Debug, Drop)]
pub struct Code {
    pub shape: Shape,
    pub methods: Items<Method>,
    pub bodies: Items<ThreadBody>,
}
