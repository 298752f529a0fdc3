//! The sources of a task: the files that are named for it or, if there are none, the given input.
ghost use Rattle.std.specs.Prelude.{◌≡◌, ◌<◌, length};
ghost use Rattle.kc_tool.specs.GivenSources.{Keeps, ReadsAt, seen_in};

use crate::named_sources::NamedSource;
use crate::tool_faults::ToolFault;
use kc_io::Source;

/// An action on one source, of any type, with a state of type `T`.
pub(crate) trait ReadsSource<T> {
    /// The result for one source.
    type Gives;

    ghost use Rattle.std.specs.Prelude.{Result};
    ghost use Rattle.kc_io.specs.Sources.{Seen};
    ghost use Rattle.kc_tool.specs.declared.tool_faults.ToolFault.{ToolFault};

    // in which states it may be done
    ghost can_read: { Self → T → Type 0 };

    // its effect: the source and the state before it, and after it
    ghost reads: { Self → Seen → Seen → T → T → Result Self.Gives ToolFault → Type 0 };

    /// Does it with this source.
    fn read_source<R: Source>(
        &self,
        source: &mut R,
        state: &mut T,
    ) -> Result<Self::Gives, ToolFault>
        requires { can_read self.now state.old }
        ensures { reads self.now (R.seen source.old) (R.seen source.new) state.old state.new result };
}

/// The sources of a task. They are the files after the first `own` ones or, if there are none, the input.
#[derive(Drop)]
pub(crate) struct GivenSources<'a, 'b, 'n, R: Source, F: Source> {
    /// The files of the task.
    pub files: &'a mut [NamedSource<'n, F>],
    /// The given input.
    pub input: &'b mut R,
    /// How many of the files come before the sources: a list, or a table.
    pub own: usize,
}

impl<R: Source, F: Source> GivenSources<'_, '_, '_, R, F> {
    /// How many sources there are.
    pub(crate) fn count(&self) -> usize
        ensures { result ≡ length (seen_in R.seen F.seen self.now) }
    {
        self.files.len().saturating_sub(self.own).max(1)
    }

    /// Does the action with the source at index `i`. The others are unchanged, the files keep their names, and the
    /// input is unchanged if it is no source.
    pub(crate) fn read<T, V: ReadsSource<T>>(
        &mut self,
        i: usize,
        reader: &V,
        state: &mut T,
    ) -> Result<V::Gives, ToolFault>
        requires within { i < length (seen_in R.seen F.seen self.old) }
        requires can { V.can_read reader.now state.old }
        ensures one { ReadsAt i (seen_in R.seen F.seen self.old) (seen_in R.seen F.seen self.new)
            (λ old new. V.reads reader.now old new state.old state.new result) }
        ensures kept { Keeps R.seen F.seen self.old self.new }
    {
        let own = self.own;
        let files = &mut *self.files;
        if files.len() <= own {
            return reader.read_source(self.input, state);
        }
        let file = &mut files[own + i];
        reader.read_source(&mut file.source, state)
    }
}
