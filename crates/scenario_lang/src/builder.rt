//! The tree that the lines so far begin.
ghost use Rattle.std.specs.Prelude.{◌≡◌, [], ◌∷◌, ◌++◌, IfOk, OnOk, ◌<◌, length, None, Ok, nat_le};
ghost use Rattle.scenario_grammar.specs.Building.{step, opened, added, changed, closed_by, ended, else_of, except_by, finally_by, caught, at};
ghost use Rattle.std.specs.List.{list_any};
ghost use Rattle.std.specs.Option.{option_map};
ghost use Rattle.scenario_grammar.specs.declared.limits.TheConstants.{MOST_LEVELS};
ghost use Rattle.scenario_grammar.specs.Parsed.{has_objects, is_begun, nothing_yet, standing};
ghost use Rattle.scenario_grammar.specs.Place.{misplaced};
ghost use Rattle.scenario_grammar.specs.Spells.{is_main};
ghost use Rattle.scenario_lang.specs.Builders.{building, open_of, with_open, with_one_more};
ghost use Rattle.scenario_lang.specs.Lines.{ended_at};
ghost use Rattle.scenario_lang.specs.Roles.{as_open, as_role, innermost_of};

use crate::kind::{Kind, Standing, block_kind, why_misplaced};
use crate::role::Role;
use gv_values::digits::same_bytes;
use gv_values::{Class, Name};
use scenario_grammar::{MOST_LEVELS, OpenBlock, Opening, Phrase, Place, TextReason};
use scenario_tree::{Action, Block, Declaration, Except, Function, Items, Scenario, Statement};
use std::alloc::{AllocError, Global};

/// The profile, the objects, the functions and the open blocks so far.
#[derive(Drop)]
pub(crate) struct Builder {
    pub(crate) profile: u8,
    pub(crate) objects: Items<Declaration>,
    pub(crate) functions: Items<Function>,
    /// The outermost first.
    pub(crate) blocks: Vec<OpenBlock>,
}

impl Builder {
    /// Before the first line: a text has profile 1 unless its first line says otherwise.
    pub(crate) fn new(alloc: Global) -> Builder
        ensures { building result ≡ nothing_yet }
    {
        Builder {
            profile: 1,
            objects: Items::new(alloc),
            functions: Items::new(alloc),
            blocks: Vec::new(alloc),
        }
    }

    /// Takes what one more line says, which stands where it may.
    pub(crate) fn step(
        &mut self,
        alloc: Global,
        line: u32,
        phrase: Phrase,
    ) -> Result<(), AllocError>
        ensures { OnOk result (building self.new ≡ step (building self.old) line phrase) }
    {
        match phrase {
            Phrase::Profile(profile) => {
                self.profile = profile;
                Ok(())
            }
            Phrase::Declaration(name, object) => {
                self.objects.push(Declaration { line, name, object })
            }
            Phrase::Function(is_raw, name, parameters) => {
                self.open_block(alloc, line, Opening::Function(is_raw, name, parameters))
            }
            Phrase::Command(command) => self.add(alloc, at_line(line, Action::Command(command))),
            Phrase::Giving(target, giving) => self.add(
                alloc,
                at_line(line, Action::Giving(target, giving)),
            ),
            Phrase::If(condition) => self.open_block(alloc, line, Opening::If(condition)),
            Phrase::Else => self.part_else(alloc),
            Phrase::While(condition) => self.open_block(alloc, line, Opening::While(condition)),
            Phrase::Try => self.open_block(alloc, line, Opening::Try),
            Phrase::Except(class, target) => self.part_except(alloc, line, class, target),
            Phrase::Finally => self.part_finally(alloc),
            Phrase::Timeout(after, silent) => {
                self.open_block(alloc, line, Opening::Timeout(after, silent))
            }
            Phrase::End => self.end(alloc),
        }
    }

    /// Why a line of this role may not stand next, if it may not.
    pub(crate) fn misplaced(&self, line_role: Role) -> Option<TextReason>
        ensures { result ≡ misplaced (standing (building self.now)) (as_role line_role) }
    {
        let before = Standing {
            any_line: self.has_line(),
            has_begun: self.has_begun(),
            is_full: self.is_full(),
            innermost: self.innermost(),
        };
        why_misplaced(before, line_role)
    }

    /// Whether so many blocks are open as may be.
    fn is_full(&self) -> bool
        ensures { result ≡ nat_le MOST_LEVELS (length (standing (building self.now)).open_blocks) }
    {
        self.blocks.len() >= MOST_LEVELS
    }

    /// Whether a line was taken.
    fn has_line(&self) -> bool
        ensures { result ≡ (standing (building self.now)).any_line }
    {
        if self.has_begun() {
            return true;
        }
        if self.has_objects() {
            return true;
        }
        self.profile != 1
    }

    fn has_objects(&self) -> bool
        ensures { result ≡ has_objects (building self.now) }
    {
        if self.objects.is_empty() {
            return false;
        }
        true
    }

    fn has_begun(&self) -> bool
        ensures { result ≡ is_begun (building self.now) }
    {
        if !self.functions.is_empty() {
            return true;
        }
        !self.blocks.is_empty()
    }

    fn innermost(&self) -> Option<Kind>
        ensures { option_map as_open result ≡ innermost_of (standing (building self.now)).open_blocks }
    {
        if self.blocks.is_empty() {
            return None;
        }
        Some(block_kind(&self.blocks[self.blocks.len() - 1].opening))
    }

    /// The scenario, where the text ends with this line.
    pub(crate) fn finish(self, last_line: u32) -> Result<Scenario, Place>
        ensures { result ≡ ended_at last_line (Ok (building self)) }
    {
        let Builder {
            profile,
            objects,
            functions,
            blocks,
        } = self;
        if !blocks.is_empty() {
            return Err(Place {
                line: last_line,
                reason: TextReason::NotClosed.number(),
            });
        }
        if !defines_main(functions.as_slice()) {
            return Err(Place {
                line: last_line,
                reason: TextReason::NoMain.number(),
            });
        }
        Ok(Scenario {
            profile,
            objects,
            functions,
        })
    }

    /// Puts a block inside the others.
    #[tactic(auto, using(crate::proofs::Last::reverse_push))]
    fn put(&mut self, block: OpenBlock) -> Result<(), AllocError>
        ensures { OnOk result (building self.new ≡ with_open (block ∷ open_of self.old) (building self.old)) }
    {
        self.blocks.push(block)?;
        Ok(())
    }

    /// Takes the innermost block out.
    fn take(&mut self) -> OpenBlock
        requires { 0 < length self.old.blocks.items }
        ensures block { open_of self.old ≡ result ∷ open_of self.new }
        ensures others { building self.new ≡ with_open (open_of self.new) (building self.old) }
    {
        let last = self.blocks.len() - 1;
        self.blocks.remove(last)
    }

    fn open_block(&mut self, alloc: Global, line: u32, opening: Opening) -> Result<(), AllocError>
        ensures { OnOk result (building self.new ≡ opened line opening (building self.old)) }
    {
        self.put(OpenBlock {
            line,
            opening,
            statements: Items::new(alloc),
        })
    }

    /// Adds a statement to the innermost block.
    fn add(&mut self, alloc: Global, statement: Statement) -> Result<(), AllocError>
        ensures { OnOk result (building self.new ≡ added (statement ∷ []) (building self.old)) }
    {
        if self.blocks.is_empty() {
            discard(alloc, statement)?;
            return Ok(());
        }
        let block = self.take();
        let block = with_statement(block, statement)?;
        self.put(block)
    }

    fn part_else(&mut self, alloc: Global) -> Result<(), AllocError>
        ensures { OnOk result (building self.new ≡ changed else_of (building self.old)) }
    {
        if self.blocks.is_empty() {
            return Ok(());
        }
        let block = self.take();
        self.put(to_else(alloc, block))
    }

    fn part_except(
        &mut self,
        alloc: Global,
        line: u32,
        class: Class,
        target: Option<Name>,
    ) -> Result<(), AllocError>
        ensures { OnOk result (building self.new ≡ changed (λ o. except_by line class target o o.opening) (building self.old)) }
    {
        if self.blocks.is_empty() {
            return Ok(());
        }
        let block = self.take();
        let block = to_except(alloc, line, class, target, block)?;
        self.put(block)
    }

    fn part_finally(&mut self, alloc: Global) -> Result<(), AllocError>
        ensures { OnOk result (building self.new ≡ changed (λ o. finally_by o o.opening) (building self.old)) }
    {
        if self.blocks.is_empty() {
            return Ok(());
        }
        let block = self.take();
        let block = to_finally(alloc, block)?;
        self.put(block)
    }

    /// Ends the innermost block.
    fn end(&mut self, alloc: Global) -> Result<(), AllocError>
        ensures { OnOk result (building self.new ≡ ended (building self.old)) }
    {
        if self.blocks.is_empty() {
            return Ok(());
        }
        let block = self.take();
        self.close(alloc, block)
    }

    /// Makes of a block that was the innermost what it becomes where it ends. The body is long since each opening has
    /// its arm.
    fn close(&mut self, alloc: Global, block: OpenBlock) -> Result<(), AllocError>
        ensures { OnOk result (building self.new ≡ closed_by (with_open (block ∷ open_of self.old) (building self.old)) block block.opening (open_of self.old)) }
    {
        let OpenBlock {
            line,
            opening,
            statements,
        } = block;
        match opening {
            Opening::Function(is_raw, name, parameters) => self.functions.push(Function {
                line,
                is_raw,
                name,
                parameters,
                body: statements,
            }),
            Opening::If(condition) => self.add(
                alloc,
                at_line(line, Action::If(condition, statements, None)),
            ),
            Opening::Else(condition, then_part) => {
                self.add(
                    alloc,
                    at_line(line, Action::If(condition, then_part, Some(statements))),
                )
            }
            Opening::While(condition) => self.add(
                alloc,
                at_line(line, Action::While(condition, statements)),
            ),
            Opening::Try => self.put(OpenBlock {
                line,
                opening: Opening::Try,
                statements,
            }),
            Opening::Except(tried, excepts, except_line, class, name) => {
                let last = Except {
                    line: except_line,
                    class,
                    name,
                    body: statements,
                };
                self.close_try(alloc, line, tried, excepts, last)
            }
            Opening::Finally(tried, excepts) => {
                self.add(
                    alloc,
                    at_line(line, Action::Try(tried, excepts, Some(statements))),
                )
            }
            Opening::Timeout(after, silent) => {
                self.add(
                    alloc,
                    at_line(line, Action::Timeout(after, silent, statements)),
                )
            }
        }
    }

    /// Adds a try that ends with an except.
    fn close_try(
        &mut self,
        alloc: Global,
        line: u32,
        tried: Block,
        excepts: Items<Except>,
        last: Except,
    ) -> Result<(), AllocError>
        ensures { OnOk result (building self.new ≡ added (at line (Action.Try tried (excepts ++ last ∷ []) None) ∷ []) (building self.old)) }
    {
        let mut excepts = excepts;
        excepts.push(last)?;
        self.add(alloc, at_line(line, Action::Try(tried, excepts, None)))
    }
}

fn defines_main(functions: &[Function]) -> bool
    ensures { result ≡ list_any is_main functions.now }
{
    functions.iter().any(|function| is_main(function))
}

/// Whether the function is the main one: not a body of raw greenlets, and of the name `main`.
pub fn is_main(function: &Function) -> bool
    ensures { result ≡ is_main function.now }
{
    !function.is_raw && same_bytes(function.name.bytes(), b"main")
}

/// A statement that stands on this line.
fn at_line(line: u32, action: Action) -> Statement
    ensures { result ≡ at line action }
{
    Statement { line, action }
}

fn discard(alloc: Global, statement: Statement) -> Result<(), AllocError> {
    let mut discarded = Items::new(alloc);
    discarded.push(statement)
}

/// The block with one statement more.
fn with_statement(block: OpenBlock, statement: Statement) -> Result<OpenBlock, AllocError>
    ensures { IfOk result (λ found. found ≡ with_one_more block statement) }
{
    let OpenBlock {
        line,
        opening,
        statements,
    } = block;
    let (opening, statements) = both(opening, with_last(statements, statement))?;
    Ok(OpenBlock {
        line,
        opening,
        statements,
    })
}

/// Both parts, where memory was found for the second. Else the first is dropped here, and not where its drop has a
/// case for each variant.
fn both<A: Drop, B: Drop>(first: A, second: Result<B, AllocError>) -> Result<(A, B), AllocError>
    ensures first { IfOk result (λ parts. first ≡ parts.0) }
    ensures second { IfOk result (λ parts. second ≡ Ok parts.1) }
{
    match second {
        Ok(second) => Ok((first, second)),
        Err(refusal) => Err(refusal),
    }
}

fn with_last(statements: Block, last: Statement) -> Result<Block, AllocError>
    ensures { IfOk result (λ found. found ≡ statements ++ last ∷ []) }
{
    let mut found = statements;
    found.push(last)?;
    Ok(found)
}

/// The part of an if behind its `else`.
fn to_else(alloc: Global, block: OpenBlock) -> OpenBlock
    ensures { result ≡ else_of block }
{
    let OpenBlock {
        line,
        opening,
        statements,
    } = block;
    match opening {
        Opening::If(condition) => OpenBlock {
            line,
            opening: Opening::Else(condition, statements),
            statements: Items::new(alloc),
        },
        opening => OpenBlock {
            line,
            opening,
            statements,
        },
    }
}

/// The next except of a try.
fn to_except(
    alloc: Global,
    line: u32,
    class: Class,
    target: Option<Name>,
    block: OpenBlock,
) -> Result<OpenBlock, AllocError>
    ensures { IfOk result (λ found. found ≡ except_by line class target block block.opening) }
{
    let OpenBlock {
        line: try_line,
        opening,
        statements,
    } = block;
    match opening {
        Opening::Try => Ok(OpenBlock {
            line: try_line,
            opening: Opening::Except(statements, Items::new(alloc), line, class, target),
            statements: Items::new(alloc),
        }),
        Opening::Except(tried, excepts, last_line, last_class, last_target) => {
            let excepts = with_except(excepts, last_line, last_class, last_target, statements)?;
            Ok(OpenBlock {
                line: try_line,
                opening: Opening::Except(tried, excepts, line, class, target),
                statements: Items::new(alloc),
            })
        }
        opening => Ok(OpenBlock {
            line: try_line,
            opening,
            statements,
        }),
    }
}

/// The finally of a try.
fn to_finally(alloc: Global, block: OpenBlock) -> Result<OpenBlock, AllocError>
    ensures { IfOk result (λ found. found ≡ finally_by block block.opening) }
{
    let OpenBlock {
        line,
        opening,
        statements,
    } = block;
    match opening {
        Opening::Try => Ok(OpenBlock {
            line,
            opening: Opening::Finally(statements, Items::new(alloc)),
            statements: Items::new(alloc),
        }),
        Opening::Except(tried, excepts, last_line, last_class, last_target) => {
            let excepts = with_except(excepts, last_line, last_class, last_target, statements)?;
            Ok(OpenBlock {
                line,
                opening: Opening::Finally(tried, excepts),
                statements: Items::new(alloc),
            })
        }
        opening => Ok(OpenBlock {
            line,
            opening,
            statements,
        }),
    }
}

/// The excepts with one more.
fn with_except(
    excepts: Items<Except>,
    line: u32,
    class: Class,
    name: Option<Name>,
    body: Block,
) -> Result<Items<Except>, AllocError>
    ensures { IfOk result (λ found. found ≡ excepts ++ caught line class name body ∷ []) }
{
    let mut found = excepts;
    found.push(Except {
        line,
        class,
        name,
        body,
    })?;
    Ok(found)
}
