//! Whether a form may stand behind the lines so far.

ghost use Rattle.std.specs.Prelude.{◌↔◌, IsTrue};
ghost use Rattle.line_forms.specs.Forms.{form_of};
ghost use Rattle.script_read.specs.Place.{IsCoveredOf, IsInOrderOf, IsReachedOf};

use crate::state::{State, section_of};
use line_forms::Form;
use perf_base::CpuNo;

impl State {
    /// Whether each processor of the machine is of some PMU.
    fn is_covered(&self) -> bool
        ensures { IsTrue result ↔ IsCoveredOf self.now }
    {
        for cpu in 0..self.script.cpus() {
            if !self.named.contains(CpuNo(cpu)) {
                return false;
            }
        }
        true
    }

    fn is_in_order(&self, form: &Form<'_>) -> bool
        ensures { IsTrue result ↔ IsInOrderOf self.now (form_of form.now) }
    {
        self.section.rank() <= section_of(form).rank()
    }

    /// Whether the form's section may come next.
    pub fn reaches(&self, form: &Form<'_>) -> bool
        ensures { IsTrue result ↔ IsReachedOf self.now (form_of form.now) }
    {
        match form {
            Form::Pmu { .. } => self.is_in_order(form),
            _ => self.is_in_order(form) && self.is_covered(),
        }
    }
}
