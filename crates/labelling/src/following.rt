//! A known route, along which a search begins.

ghost use Rattle.labelling.specs.Search.{Continues, GoesOn, LosesNothing};

use crate::fault::LabelFault;
use crate::labeller::Labeller;

impl<'t, 'i> Labeller<'t, 'i> {
    /// Takes the step from the label at an index to the next stop of a known route, and answers the index that
    /// the label after it has where it was added; nothing where there is no such label or step. Where the step
    /// added none, no label has that index.
    fn follow_to(&mut self, index: usize, j: u16) -> Result<Option<usize>, LabelFault>
        requires { LosesNothing self.old }
        ensures { GoesOn self.old self.new result }
    {
        let count = self.labels.len();
        if index >= count {
            return Ok(None);
        }
        let label = self.labels[index];
        let Some(step) = self.completions.task.step_to(label.front.last, j) else {
            return Ok(None);
        };
        self.take_step(&label, index, self.best.value, &step)?;
        Ok(Some(count))
    }

    /// Counts the route that ends at the label at an index, and asks from then on for cheaper ones alone.
    fn cut_at(&mut self, index: usize)
        requires { LosesNothing self.old }
        ensures { Continues self.old self.new }
    {
        if index >= self.labels.len() {
            return;
        }
        let label = self.labels[index];
        self.best = self.best_with(&label, index);
        self.cut = self.best.value.unwrap_or(i64::MIN);
    }

    /// Goes along a known route as far as the region allows it.
    pub(crate) fn follow(&mut self, stops: &[u16]) -> Result<(), LabelFault>
        requires { LosesNothing self.old }
        ensures { GoesOn self.old self.new result }
    {
        let mut index = 0;
        for stop in stops {
            let Some(next) = self.follow_to(index, *stop)? else {
                return Ok(());
            };
            index = next;
        }
        self.cut_at(index);
        Ok(())
    }
}
