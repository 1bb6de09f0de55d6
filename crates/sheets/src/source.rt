// Where a model's fields come from: the bits of a sheet, or what a writer is given and lent. A field that is not complete is None.
ghost use Rattle.std.specs.Prelude.{◌≡◌, ◌+◌, ◌*◌, ◌<◌, ◌≤◌};
ghost use Rattle.task.specs.Sizes.{limits};
ghost use Rattle.task.specs.declared.Shape.{Shape};
ghost use Rattle.fields.specs.Judging.{read};
ghost use Rattle.sheets.specs.ModelSheet.{Source, most_bits, model_bits, sheet_with};
ghost use Rattle.sheets.specs.LentTables.{of_tables};

use crate::{column_bits, fill_bits, model_bits};
use fields::field::whole_field;
use fields::place::place;
use task::Shape;

pub trait ModelSource {
    ghost shape: { Self → Shape };

    ghost fields: { Self → Source };

    fn shape(&self) -> Shape
        ensures { result ≡ shape self.now };

    fn size(&self, column: usize) -> Option<usize>
        requires { column < limits.columns }
        ensures { result ≡ read ((fields self.now).column column).size };

    fn start(&self, column: usize) -> Option<usize>
        requires { column < limits.columns }
        ensures { result ≡ read ((fields self.now).column column).start };

    fn goal(&self, column: usize) -> Option<usize>
        requires { column < limits.columns }
        ensures { result ≡ read ((fields self.now).column column).goal };

    fn cost(&self, step: usize) -> Option<usize>
        requires { step < limits.steps }
        ensures { result ≡ read ((fields self.now).cost step) };

    fn need(&self, step: usize, column: usize) -> Option<usize>
        requires { (step < limits.steps) × (column < limits.columns) }
        ensures { result ≡ read ((fields self.now).marks step column).need };

    fn effect(&self, step: usize, column: usize) -> Option<usize>
        requires { (step < limits.steps) × (column < limits.columns) }
        ensures { result ≡ read ((fields self.now).marks step column).effect };

    fn fill(&self) -> Option<usize>
        ensures { result ≡ read (fields self.now).fill };
}

// The bytes of a sheet of so many columns and steps.
#[derive(Clone, Copy)]
pub struct SheetFields<'a> {
    pub bytes: &'a [u8],
    pub shape: Shape,
}

impl SheetFields<'_> {
    // Where the marks of a step at a column stand: its need mark, and 6 bits on its effect mark.
    pub fn marks_at(&self, step: usize, column: usize) -> usize
        requires { (step < limits.steps) × (column < limits.columns) }
        ensures at { result ≡ model_bits self.now.shape.columns step + 16 + column * 12 }
        ensures low { result ≤ most_bits + 16 + limits.columns * 12 }
    {
        model_bits(self.shape.columns, step) + 16 + column * 12
    }
}

#[tactic(auto, unfolding(crate::specs::ModelSheet::sheet_with, crate::specs::ModelSheet::column_on))]
impl ModelSource for SheetFields<'_> {
    ghost shape = { λ s. s.shape };

    ghost fields = { λ s. sheet_with s.bytes.now s.shape.columns s.shape.steps };

    fn shape(&self) -> Shape {
        self.shape
    }

    fn size(&self, column: usize) -> Option<usize> {
        whole_field(self.bytes, column_bits(column), 6)
    }

    fn start(&self, column: usize) -> Option<usize> {
        whole_field(self.bytes, column_bits(column) + 6, 5)
    }

    fn goal(&self, column: usize) -> Option<usize> {
        whole_field(self.bytes, column_bits(column) + 6 + 5, 6)
    }

    #[tactic(auto, unfolding(crate::specs::ModelSheet::sheet_with, crate::specs::ModelSheet::cost_on))]
    fn cost(&self, step: usize) -> Option<usize> {
        whole_field(self.bytes, model_bits(self.shape.columns, step), 16)
    }

    #[tactic(auto, unfolding(crate::specs::ModelSheet::sheet_with, crate::specs::ModelSheet::marks_on))]
    fn need(&self, step: usize, column: usize) -> Option<usize> {
        whole_field(self.bytes, self.marks_at(step, column), 6)
    }

    #[tactic(auto, unfolding(crate::specs::ModelSheet::sheet_with, crate::specs::ModelSheet::marks_on))]
    fn effect(&self, step: usize, column: usize) -> Option<usize> {
        whole_field(self.bytes, self.marks_at(step, column) + 6, 6)
    }

    fn fill(&self) -> Option<usize> {
        let bits = model_bits(self.shape.columns, self.shape.steps);
        whole_field(self.bytes, bits, fill_bits(bits))
    }
}

// The tables that a writer is lent for a model of so many columns and steps. Its fill is given as 0.
#[derive(Clone, Copy)]
pub struct ModelTables<'a> {
    pub shape: Shape,
    pub frame: &'a [u8],
    pub costs: &'a [u16],
    pub marks: &'a [u8],
}

impl ModelTables<'_> {
    // The place of the need mark of a step at a column. The effect mark has the next.
    pub fn marks_at(&self, step: usize, column: usize) -> usize
        requires { (step < limits.steps) × (column < limits.columns) }
        ensures at { result ≡ step * (self.now.shape.columns * 2) + column * 2 }
        ensures low { result < limits.steps * (limits.columns * 2) + limits.columns * 2 }
    {
        step * (self.shape.columns * 2) + column * 2
    }
}

#[tactic(auto, unfolding(crate::specs::LentTables::of_tables, fields::specs::Judging::read))]
impl ModelSource for ModelTables<'_> {
    ghost shape = { λ t. t.shape };

    ghost fields = { λ t. of_tables t.shape.columns t.shape.steps t.frame.now t.costs.now t.marks.now };

    fn shape(&self) -> Shape {
        self.shape
    }

    fn size(&self, column: usize) -> Option<usize> {
        place(self.frame, column * 3)
    }

    fn start(&self, column: usize) -> Option<usize> {
        place(self.frame, column * 3 + 1)
    }

    fn goal(&self, column: usize) -> Option<usize> {
        place(self.frame, column * 3 + 2)
    }

    fn cost(&self, step: usize) -> Option<usize> {
        place(self.costs, step)
    }

    fn need(&self, step: usize, column: usize) -> Option<usize> {
        place(self.marks, self.marks_at(step, column))
    }

    fn effect(&self, step: usize, column: usize) -> Option<usize> {
        place(self.marks, self.marks_at(step, column) + 1)
    }

    fn fill(&self) -> Option<usize> {
        Some(0)
    }
}
