//! Puts statement lines together to blocks and scripts, by a stack of frames.
ghost use Rattle.std.specs.Prelude.{◌≡◌, ◌∷◌, [], ◌++◌, ◌≤◌, ◌<◌, ◌+◌, ◌*◌, ◌^◌, List, max, min, IfOk, IfErr, IsSome, map, reverse, ◌&&◌};
ghost use Rattle.fp_model.specs.Asking.{statement_cost, cost};
ghost use Rattle.txn_lang.specs.declared.line.Line.{Line};
ghost use Rattle.txn_lang.specs.declared.line.Line.TheVariants as line;
ghost use Rattle.txn_lang.specs.Blocks as blocks;
ghost use Rattle.txn_lang.specs.Building.{Refuses};
ghost use Rattle.txn_lang.specs.inside.Building as building;
ghost use Rattle.txn_lang.specs.inside.Building.{IsBlock, IsBuilt, Follows, Adds, context_of, context_behind, statement_by};

use crate::fault::ScriptFault;
use crate::line::Line;
use crate::standing::{Block, Builder, Frame, Opening};
use fp_model::{List, Name, Script, Statement};
use std::alloc::{AllocError, Global};

// A cost is kept up to this number.
const GREATEST_COST: u64 = 1_000_000_000;

// A cost, kept up to the greatest.
fn capped(cost: u64) -> u64
    ensures { result ≡ building.capped cost }
{
    cost.min(GREATEST_COST)
}

impl Block {
    // An empty block.
    fn new(alloc: Global) -> Block
        ensures empty { result.statements ≡ [] }
        ensures free { result.cost ≡ 0 }
    {
        Block {
            statements: List::new(alloc),
            cost: 0,
        }
    }

    // The block with one statement more, which costs so much.
    fn with(self, statement: Statement, cost: u64) -> Result<Block, AllocError>
        requires costed { IsBlock self }
        requires kept { cost ≡ building.capped (statement_cost statement) }
        ensures statements { IfOk result (λ b. b.statements ≡ self.statements ++ statement ∷ []) }
        ensures costed { IfOk result (λ b. IsBlock b) }
    {
        let Block {
            mut statements,
            cost: before,
        } = self;
        statements.push(statement)?;
        Ok(Block {
            statements,
            cost: capped(before + cost),
        })
    }
}

// The statement that a block makes at its END, and what it costs.
fn closed(opening: Opening, block: Block, alloc: Global) -> (Statement, u64)
    requires opening { building.IsOpening opening }
    requires block { IsBlock block }
    ensures statement { result.0 ≡ statement_by opening block.statements }
    ensures cost { result.1 ≡ building.capped (statement_cost result.0) }
{
    let Block { statements, cost } = block;
    match opening {
        Opening::Choice {
            left,
            comparison,
            right,
        } => {
            let otherwise = List::new(alloc);
            let statement = Statement::If {
                left,
                comparison,
                right,
                then: statements,
                otherwise,
            };
            (statement, capped(1 + cost))
        }
        Opening::Otherwise {
            left,
            comparison,
            right,
            taken,
        } => {
            let Block {
                statements: then,
                cost: other,
            } = taken;
            let statement = Statement::If {
                left,
                comparison,
                right,
                then,
                otherwise: statements,
            };
            (statement, capped(1 + cost.max(other)))
        }
        Opening::Loop { times } => {
            let statement = Statement::Repeat {
                times,
                body: statements,
            };
            (statement, capped(1 + u64::from(times) * cost))
        }
    }
}

// The block that an open one stands in, with the statement that this one makes at its END.
fn around(frame: Frame, block: Block, alloc: Global) -> Result<Block, AllocError>
    requires opening { building.IsOpening frame.opening }
    requires outer { IsBlock frame.outer }
    requires block { IsBlock block }
    ensures statements { IfOk result (λ b. b.statements
        ≡ frame.outer.statements ++ statement_by frame.opening block.statements ∷ []) }
    ensures costed { IfOk result (λ b. IsBlock b) }
{
    let Frame {
        opening,
        line: _,
        outer,
    } = frame;
    let (statement, cost) = closed(opening, block, alloc);
    outer.with(statement, cost)
}

impl Builder {
    /// Before the first line.
    pub(crate) fn new(alloc: Global) -> Builder
        ensures context { context_of result ≡ blocks.at_top }
        ensures built { IsBuilt result [] }
    {
        Builder {
            begun: None,
            block: Block::new(alloc),
            frames: List::new(alloc),
            left_open: None,
            scripts: List::new(alloc),
            costs: List::new(alloc),
        }
    }

    // A statement in the innermost block.
    fn put(self, statement: Statement) -> Result<Builder, AllocError>
        requires begun { IsSome self.begun }
        requires block { IsBlock self.block }
        requires one { statement_cost statement ≡ 1 }
        ensures context { IfOk result (λ b. context_of b ≡ context_of self) }
        ensures built { IfOk result (λ b. Adds self (line.Whole statement) b) }
    {
        let Builder {
            begun,
            block,
            frames,
            left_open,
            scripts,
            costs,
        } = self;
        let block = block.with(statement, 1)?;
        Ok(Builder {
            begun,
            block,
            frames,
            left_open,
            scripts,
            costs,
        })
    }

    // A new block, of the IF or REPEAT in this line.
    fn open(self, alloc: Global, opening: Opening, line: u32) -> Result<Builder, AllocError>
        requires begun { IsSome self.begun }
        requires first { building.IsFirst opening }
        requires opening { building.IsOpening opening }
        ensures context { IfOk result (λ b. context_of b ≡ building.with_block (building.kind_of opening) line
            (context_of self)) }
        ensures built { IfOk result (λ b. Adds self (building.opening_line opening) b) }
    {
        let Builder {
            begun,
            block,
            mut frames,
            left_open,
            scripts,
            costs,
        } = self;
        frames.push(Frame {
            opening,
            line,
            outer: block,
        })?;
        let block = Block::new(alloc);
        Ok(Builder {
            begun,
            block,
            frames,
            left_open,
            scripts,
            costs,
        })
    }

    // ELSE: the block of an IF becomes its first one.
    fn turn(self, alloc: Global) -> Result<Builder, AllocError>
        requires begun { IsSome self.begun }
        requires choice { IsSome (blocks.else_in (context_of self).open_blocks) }
        ensures context { IfOk result (λ b. context_of b ≡ building.or_same (context_of self)
            (blocks.else_in (context_of self).open_blocks)) }
        ensures built { IfOk result (λ b. Adds self line.Else b) }
    {
        let Builder {
            begun,
            block,
            mut frames,
            left_open,
            scripts,
            costs,
        } = self;
        match frames.pop() {
            Some(
                Frame {
                    opening,
                    line,
                    outer,
                },
            ) => {
                frames.push(Frame {
                    opening: turned(opening, block),
                    line,
                    outer,
                })?;
                let block = Block::new(alloc);
                Ok(Builder {
                    begun,
                    block,
                    frames,
                    left_open,
                    scripts,
                    costs,
                })
            }
            None => Ok(Builder {
                begun,
                block,
                frames,
                left_open,
                scripts,
                costs,
            }),
        }
    }

    // END: the innermost block becomes a statement of the one around it.
    fn close(self, alloc: Global) -> Result<Builder, AllocError>
        requires begun { IsSome self.begun }
        requires some { IsSome (blocks.end_in (context_of self).open_blocks) }
        requires block { IsBlock self.block }
        requires frames { building.AreFrames (reverse self.frames) }
        ensures context { IfOk result (λ b. context_of b ≡ building.or_same (context_of self)
            (blocks.end_in (context_of self).open_blocks)) }
        ensures built { IfOk result (λ b. Adds self line.End b) }
    {
        let Builder {
            begun,
            block,
            mut frames,
            left_open,
            scripts,
            costs,
        } = self;
        match frames.pop() {
            Some(frame) => {
                let block = around(frame, block, alloc)?;
                Ok(Builder {
                    begun,
                    block,
                    frames,
                    left_open,
                    scripts,
                    costs,
                })
            }
            None => Ok(Builder {
                begun,
                block,
                frames,
                left_open,
                scripts,
                costs,
            }),
        }
    }

    // TRAN: the script before it ends, and another begins.
    fn begin(self, alloc: Global, name: Name) -> Result<Builder, AllocError>
        requires { IsBlock self.block }
        ensures context { IfOk result (λ b. context_of b ≡ blocks.begun (context_of self)) }
        ensures built { IfOk result (λ b. Adds self (line.Tran name) b) }
    {
        let left_open = self.unclosed();
        let Builder {
            begun,
            block,
            frames: _,
            left_open: _,
            scripts,
            costs,
        } = self;
        let (scripts, costs) = with_last(scripts, costs, begun, block)?;
        Ok(Builder {
            begun: Some(name),
            block: Block::new(alloc),
            frames: List::new(alloc),
            left_open,
            scripts,
            costs,
        })
    }

    /// A line behind those before.
    pub(crate) fn add(self, alloc: Global, number: u32, line: Line) -> Result<Builder, AllocError>
        requires follows { Follows line (context_of self) }
        requires block { IsBlock self.block }
        requires frames { building.AreFrames (reverse self.frames) }
        ensures context { IfOk result (λ b. context_of b ≡ context_behind number line (context_of self)) }
        ensures built { IfOk result (λ b. Adds self line b) }
    {
        match line {
            Line::Tran(name) => self.begin(alloc, name),
            Line::If {
                left,
                comparison,
                right,
            } => {
                self.open(
                    alloc,
                    Opening::Choice {
                        left,
                        comparison,
                        right,
                    },
                    number,
                )
            }
            Line::Else => self.turn(alloc),
            Line::Repeat(times) => self.open(alloc, Opening::Loop { times }, number),
            Line::End => self.close(alloc),
            Line::Whole(statement) => self.put(statement),
        }
    }

    /// The scripts, and what each costs, at the end of a text.
    pub(crate) fn finish(self) -> Result<(List<Script>, List<u64>), ScriptFault>
        requires { IsBlock self.block }
        ensures ok { IfOk result (λ x. building.Finishes self x.0 x.1) }
        ensures err { IfErr result (λ e. Refuses e (building.IsLeftOpen self e)) }
    {
        match self.unclosed() {
            Some(number) => Err(ScriptFault::Syntax(number)),
            None => {
                let Builder {
                    begun,
                    block,
                    frames: _,
                    left_open: _,
                    scripts,
                    costs,
                } = self;
                Ok(with_last(scripts, costs, begun, block)?)
            }
        }
    }
}

// An IF behind its ELSE.
fn turned(opening: Opening, taken: Block) -> Opening
    ensures { result ≡ building.turned opening taken }
{
    match opening {
        Opening::Choice {
            left,
            comparison,
            right,
        } => {
            Opening::Otherwise {
                left,
                comparison,
                right,
                taken,
            }
        }
        other => other,
    }
}

// Scripts and their costs, with the one that was being read.
fn with_last(
    scripts: List<Script>,
    costs: List<u64>,
    begun: Option<Name>,
    block: Block,
) -> Result<(List<Script>, List<u64>), AllocError>
    requires { IsBlock block }
    ensures scripts { IfOk result (λ x. x.0 ≡ scripts ++ building.finished begun block.statements) }
    ensures costs { IfOk result (λ x. costs ≡ map (λ s. cost s.statements) scripts
        → x.1 ≡ map (λ s. cost s.statements) x.0) }
{
    let mut scripts = scripts;
    let mut costs = costs;
    let Block { statements, cost } = block;
    if let Some(name) = begun {
        scripts.push(Script { name, statements })?;
        costs.push(capped(1 + cost))?;
    }
    Ok((scripts, costs))
}
