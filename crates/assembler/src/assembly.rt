//! `Assembly`: a program while its lines are read.
ghost use Rattle.std.specs.Prelude.{◌≡◌, true, false, unwrap_or, IfSome, OnOk};
ghost use Rattle.stride_isa.specs.Instructions.{class, op_with};
ghost use Rattle.stride_isa.specs.Listing.{empty, is_taken, cells_of, with_decl, with_op};
ghost use Rattle.stride_isa.specs.Names.{is_name};
ghost use Rattle.stride_isa.specs.WellFormed.{FitsClass, HasSize};
ghost use Rattle.assembler.specs.Forms.{VarLine, ArrayLine, MonitorLine, ThreadLine, WholeLine};
ghost use Rattle.assembler.specs.Programs.{added, find_named, has_all_instructions, has_thread, overfills, refusal};
ghost use Rattle.assembler.specs.Refusals.{Refuses, no_labels, wrong_by, wrong_label, wrong_naming};
ghost use Rattle.assembler.specs.Seen.{form, labels_seen, IsInStep, IsWellDeclared};

use crate::asm_error::AsmKind;
use crate::line::Line;
use crate::names::Names;
use crate::refusal::Refusal;
use crate::thread_labels::ThreadLabels;
use std::alloc::Global;
use stride_isa::{Decl, Name, Op, OpKind, OperandClass, Program, Shape, class_of, op_with};

/// A program as far as its lines were read. Contracts judge a line that looks at no label by `no_labels`.
#[derive(Drop)]
pub(crate) struct Assembly<'a> {
    program: Program,
    decls: Names<'a>,
    monitors: Names<'a>,
    // Whether a thread has begun.
    begun: bool,
}

impl<'a> Assembly<'a> {
    /// The empty program. It takes no memory.
    pub(crate) fn new(alloc: Global) -> Assembly<'a>
        ensures program { result.program ≡ empty }
        ensures step { IsInStep result }
    {
        Assembly {
            program: Program::new(alloc),
            decls: Names::new(alloc),
            monitors: Names::new(alloc),
            begun: false,
        }
    }

    /// The program.
    pub(crate) fn into_program(self) -> Program
        ensures { result ≡ self.entry.program }
    {
        let Assembly {
            program,
            decls: _,
            monitors: _,
            begun: _,
        } = self;
        program
    }

    // Adds a declaration before any thread.
    fn add_decl(&mut self, word: &'a [u8], shape: Shape, start: u64) -> Result<(), Refusal>
        requires step { IsInStep self.old }
        requires named { is_name word.now ≡ true }
        requires size { HasSize shape }
        ensures refused { Refuses (wrong_by (is_taken self.old.program word.now) (overfills self.old.program (cells_of shape))) result }
        ensures added { OnOk result (self.new.program ≡ with_decl self.old.program (record { name = word.now; shape = shape; start = start })) }
        ensures step { OnOk result (IsInStep self.new) }
    {
        let Some(name) = Name::of(word) else {
            unreachable!()
        };
        let position = self.program.add_cells(Decl { name, shape, start })?;
        self.decls.insert(word, position)?;
        Ok(())
    }

    fn add_var(&mut self, word: &'a [u8], start: Option<u64>) -> Result<(), Refusal>
        requires step { IsInStep self.old }
        requires named { is_name word.now ≡ true }
        ensures refused { Refuses (refusal no_labels self.old.program (VarLine word.now start)) result }
        ensures added { OnOk result (self.new.program ≡ added no_labels self.old.program (VarLine word.now start)) }
        ensures step { OnOk result (IsInStep self.new) }
    {
        if self.begun {
            return Err(Refusal::Bad(AsmKind::BadLine));
        }
        let Some(start) = start else {
            return Err(Refusal::Bad(AsmKind::BadNumber));
        };
        self.add_decl(word, Shape::Single, start)
    }

    fn add_array(
        &mut self,
        word: &'a [u8],
        size: Option<u32>,
        start: Option<u64>,
    ) -> Result<(), Refusal>
        requires step { IsInStep self.old }
        requires declared { IsWellDeclared (ArrayLine word.now size start) }
        ensures refused { Refuses (refusal no_labels self.old.program (ArrayLine word.now size start)) result }
        ensures added { OnOk result (self.new.program ≡ added no_labels self.old.program (ArrayLine word.now size start)) }
        ensures step { OnOk result (IsInStep self.new) }
    {
        if self.begun {
            return Err(Refusal::Bad(AsmKind::BadLine));
        }
        let (Some(size), Some(start)) = (size, start) else {
            return Err(Refusal::Bad(AsmKind::BadNumber));
        };
        self.add_decl(word, Shape::Array(size), start)
    }

    fn add_monitor(&mut self, word: &'a [u8]) -> Result<(), Refusal>
        requires step { IsInStep self.old }
        requires named { is_name word.now ≡ true }
        ensures refused { Refuses (refusal no_labels self.old.program (MonitorLine word.now)) result }
        ensures added { OnOk result (self.new.program ≡ added no_labels self.old.program (MonitorLine word.now)) }
        ensures step { OnOk result (IsInStep self.new) }
    {
        if self.begun {
            return Err(Refusal::Bad(AsmKind::BadLine));
        }
        let Some(name) = Name::of(word) else {
            unreachable!()
        };
        let position = self.program.add_monitor(name)?;
        self.monitors.insert(word, position)?;
        Ok(())
    }

    fn add_thread(&mut self) -> Result<(), Refusal>
        requires step { IsInStep self.old }
        ensures refused { Refuses (refusal no_labels self.old.program ThreadLine) result }
        ensures added { OnOk result (self.new.program ≡ added no_labels self.old.program ThreadLine) }
        ensures step { OnOk result (IsInStep self.new) }
    {
        self.program.add_thread()?;
        self.begun = true;
        Ok(())
    }

    // Adds an instruction to the thread that has begun.
    fn add_op(&mut self, op: Op) -> Result<(), Refusal>
        requires step { IsInStep self.old }
        requires begun { has_thread self.old.program ≡ true }
        ensures refused { Refuses (wrong_by false (has_all_instructions self.old.program)) result }
        ensures added { OnOk result (self.new.program ≡ with_op self.old.program op) }
        ensures step { OnOk result (IsInStep self.new) }
    {
        self.program.add_op(op)?;
        Ok(())
    }

    fn add_whole(&mut self, op: Option<Op>) -> Result<(), Refusal>
        requires step { IsInStep self.old }
        ensures refused { Refuses (refusal no_labels self.old.program (WholeLine op)) result }
        ensures added { OnOk result (self.new.program ≡ added no_labels self.old.program (WholeLine op)) }
        ensures step { OnOk result (IsInStep self.new) }
    {
        if !self.begun {
            return Err(Refusal::Bad(AsmKind::BadLine));
        }
        let Some(op) = op else {
            return Err(Refusal::Bad(AsmKind::BadNumber));
        };
        self.add_op(op)
    }

    // The position of what has this name, for an operand of the class.
    fn position(&self, class: OperandClass, labels: &ThreadLabels<'a>, name: &[u8]) -> Option<u32>
        requires { IsInStep self.now }
        ensures found { result ≡ find_named class (labels_seen labels.now) self.now.program name.now }
        ensures fits { IfSome result (FitsClass class) }
    {
        match class {
            OperandClass::Nothing | OperandClass::Number | OperandClass::Local => None,
            OperandClass::Label => labels.place(name),
            OperandClass::Variable | OperandClass::Array => self.decls.position(name),
            OperandClass::Monitor => self.monitors.position(name),
        }
    }

    // Adds the instruction of this kind that names what stands at the position, where its name has one.
    fn add_naming(&mut self, kind: OpKind, position: Option<u32>) -> Result<(), Refusal>
        requires step { IsInStep self.old }
        requires fits { IfSome position (FitsClass (class kind)) }
        ensures refused { Refuses (wrong_naming self.old.program (class kind) position) result }
        ensures added { OnOk result (self.new.program ≡ with_op self.old.program (op_with kind (unwrap_or position 0))) }
        ensures step { OnOk result (IsInStep self.new) }
    {
        if !self.begun {
            return Err(Refusal::Bad(AsmKind::BadLine));
        }
        let Some(at) = position else {
            return Err(Refusal::Bad(AsmKind::UnknownName {
                wanted: class_of(kind),
            }));
        };
        self.add_op(op_with(kind, u64::from(at)))
    }

    // A label adds nothing to the program.
    fn pass_label(&self, is_passed: bool) -> Result<(), Refusal>
        requires { IsInStep self.now }
        ensures { Refuses (wrong_label self.now.program is_passed) result }
    {
        if !self.begun {
            return Err(Refusal::Bad(AsmKind::BadLine));
        }
        if is_passed {
            return Err(Refusal::Bad(AsmKind::Twice));
        }
        Ok(())
    }

    /// Adds what the line says, where it sees these labels. After a refusal nothing more may be added.
    pub(crate) fn add(&mut self, line: Line<'a>, labels: &ThreadLabels<'a>) -> Result<(), Refusal>
        requires step { IsInStep self.old }
        requires declared { IsWellDeclared (form line) }
        ensures refused { Refuses (refusal (labels_seen labels.now) self.old.program (form line.entry)) result }
        ensures added { OnOk result (self.new.program ≡ added (labels_seen labels.now) self.old.program (form line.entry)) }
        ensures step { OnOk result (IsInStep self.new) }
    {
        match line {
            Line::Blank => Ok(()),
            Line::Var { name, start } => self.add_var(name, start),
            Line::Array { name, size, start } => self.add_array(name, size, start),
            Line::Monitor(name) => self.add_monitor(name),
            Line::Thread => self.add_thread(),
            Line::Label(name) => self.pass_label(labels.is_passed(name)),
            Line::Whole(op) => self.add_whole(op),
            Line::Naming(kind, name) => {
                let position = self.position(class_of(kind), labels, name);
                self.add_naming(kind, position)
            }
            Line::Malformed => Err(Refusal::Bad(AsmKind::BadLine)),
        }
    }
}
