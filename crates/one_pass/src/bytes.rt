//! Reading bytes by what is known of whole layers.
//!
//! Where it is known what the layer does on a byte, one look-up tells it. Where each set hands its cell on, only the number of
//! the layer changes: the names of its sets are written when something looks at them. Else a program steps all
//! sets at once: programs are noted over some bytes, and then run one behind another, so that room for cells is asked for once.
//! Where nothing is known, the sources are stepped one by one, and what they did is kept.
ghost use Rattle.std.specs.Prelude.{◌≡◌, ℕ, ◌+◌, ◌*◌, ◌^◌, ◌<◌, ◌≤◌, [], ◌∷◌, length, take, IfErr, IfOk, IfSome, OnOk, Some, None};
ghost use Rattle.one_pass.specs.Going.{GivesUp, GoesOn, PassReads};
ghost use Rattle.one_pass.specs.Known.{Stands};
ghost use Rattle.one_pass.specs.Numbered.{IsAhead, IsNumbered, IsReadTo, StandsIn, as_layer};
ghost use Rattle.one_pass.specs.Places.{byte_at, bytes_at};

use crate::entries::Entry;
use crate::pass::Pass;
use crate::search::QUIET;
use crate::waiting::waits;
use output_graph::Planned;
use set_table::{Table, TableFault};
use span_core::Steps;
use std::sync::ledger::Ledger;

/// Where reading has come to: behind so many of some bytes, in the layer of this number, if it has one.
#[derive(Clone, Copy, Drop)]
pub(crate) struct Place {
    pub(crate) layer: Option<usize>,
    pub(crate) bytes: usize,
}

/// Where looking ahead has come to: behind so many of some bytes, in the layer of this number, which counts as unchanged for so
/// many bytes; so many programs have been noted.
#[derive(Clone, Copy, Drop)]
pub(crate) struct Outlook {
    pub(crate) layer: usize,
    pub(crate) bytes: usize,
    pub(crate) quiet: u32,
    pub(crate) count: usize,
}

/// So many programs are noted before they are run.
const MOST_PLANNED: usize = 16;

impl Pass {
    /// Reads some bytes at the front of these, in the layer of a number, if it has one: at least one, if there is one.
    #[inline(always)]
    pub(crate) fn read_some<L: Ledger>(
        &mut self,
        table: &mut Table<'_>,
        layer: Option<usize>,
        bytes: &[u8],
        steps: &mut Steps<L>,
    ) -> Result<Place, TableFault>
        requires goes_on { GoesOn table.old (as_layer layer self.old) }
        requires stands { StandsIn table.old self.old.graph self.old.known layer }
        requires few { self.old.at + length bytes.now < 2 ^ 32 }
        ensures read { IfOk result (λ place. IsReadTo bytes.now table.old layer self.old steps.old place table.new self.new steps.new) }
        ensures some { IfOk result (λ place. 0 < length bytes.now → 0 < place.bytes) }
        ensures given_up { IfErr result
            (GivesUp (bytes_at self.old.at bytes.now) table.old (as_layer layer self.old) steps.old table.new steps.new) }
    {
        match layer {
            Some(number) => self.read_numbered(table, number, bytes, steps),
            None => self.read_first(table, bytes, steps),
        }
    }

    /// As `read_some`, where the layer has a number. If memory runs out, no program is run.
    #[inline(always)]
    fn read_numbered<L: Ledger>(
        &mut self,
        table: &mut Table<'_>,
        layer: usize,
        bytes: &[u8],
        steps: &mut Steps<L>,
    ) -> Result<Place, TableFault>
        requires goes_on { GoesOn table.old (as_layer (Some layer) self.old) }
        requires stands { IsNumbered self.old.graph self.old.known.layers layer }
        requires few { self.old.at + length bytes.now < 2 ^ 32 }
        ensures read { IfOk result (λ place. IsReadTo bytes.now table.old (Some layer) self.old steps.old place
            table.new self.new steps.new) }
        ensures some { IfOk result (λ place. 0 < length bytes.now → 0 < place.bytes) }
        ensures given_up { IfErr result
            (GivesUp (bytes_at self.old.at bytes.now) table.old (as_layer (Some layer) self.old) steps.old table.new steps.new) }
    {
        let mut planned = [Planned { at: 0, program: 0 }; MOST_PLANNED];
        let outlook = self.look_ahead(table, layer, bytes, &mut planned);
        if outlook.bytes == 0 {
            return self.read_next(table, layer, bytes, steps);
        }
        let noted = &planned[..outlook.count];
        match self
            .graph
            .run_programs(self.known.steps.programs(), noted, steps)
        {
            Ok(()) => {
                self.at += outlook.bytes as u32;
                self.search.quiet = outlook.quiet;
                Ok(Place {
                    layer: Some(outlook.layer),
                    bytes: outlook.bytes,
                })
            }
            Err(_) => self.read_next(table, layer, bytes, steps),
        }
    }

    /// As `read_numbered`, but runs no program: the first byte on which cells are not only handed on is read source by source.
    #[cold]
    #[inline(never)]
    fn read_next<L: Ledger>(
        &mut self,
        table: &mut Table<'_>,
        layer: usize,
        bytes: &[u8],
        steps: &mut Steps<L>,
    ) -> Result<Place, TableFault>
        requires goes_on { GoesOn table.old (as_layer (Some layer) self.old) }
        requires stands { IsNumbered self.old.graph self.old.known.layers layer }
        requires few { self.old.at + length bytes.now < 2 ^ 32 }
        ensures read { IfOk result (λ place. IsReadTo bytes.now table.old (Some layer) self.old steps.old place
            table.new self.new steps.new) }
        ensures some { IfOk result (λ place. 0 < length bytes.now → 0 < place.bytes) }
        ensures given_up { IfErr result
            (GivesUp (bytes_at self.old.at bytes.now) table.old (as_layer (Some layer) self.old) steps.old table.new steps.new) }
    {
        let outlook = self.look_ahead(table, layer, bytes, &mut []);
        self.at += outlook.bytes as u32;
        self.search.quiet = outlook.quiet;
        if outlook.bytes == bytes.len() {
            return Ok(Place {
                layer: Some(outlook.layer),
                bytes: outlook.bytes,
            });
        }
        match self.read_unknown(table, Some(outlook.layer), bytes[outlook.bytes], steps) {
            Ok(next) => Ok(Place {
                layer: next,
                bytes: outlook.bytes + 1,
            }),
            Err(fault) => Err(fault),
        }
    }

    /// As `read_some`, where the layer has no number.
    fn read_first<L: Ledger>(
        &mut self,
        table: &mut Table<'_>,
        bytes: &[u8],
        steps: &mut Steps<L>,
    ) -> Result<Place, TableFault>
        requires goes_on { GoesOn table.old (as_layer None self.old) }
        requires stands { StandsIn table.old self.old.graph self.old.known None }
        requires few { self.old.at + length bytes.now < 2 ^ 32 }
        ensures read { IfOk result (λ place. IsReadTo bytes.now table.old None self.old steps.old place table.new self.new steps.new) }
        ensures some { IfOk result (λ place. 0 < length bytes.now → 0 < place.bytes) }
        ensures given_up { IfErr result
            (GivesUp (bytes_at self.old.at bytes.now) table.old (as_layer None self.old) steps.old table.new steps.new) }
    {
        if bytes.len() == 0 {
            return Ok(Place {
                layer: None,
                bytes: 0,
            });
        }
        match self.read_unknown(table, None, bytes[0], steps) {
            Ok(next) => Ok(Place {
                layer: next,
                bytes: 1,
            }),
            Err(fault) => Err(fault),
        }
    }

    /// Follows what is entered for the bytes at the front of these, and notes the programs, as far as there is room for them.
    /// It ends where nothing is entered, and where the layer has been the same for a while.
    #[inline(always)]
    fn look_ahead(
        &self,
        table: &Table<'_>,
        layer: usize,
        bytes: &[u8],
        planned: &mut [Planned],
    ) -> Outlook
        requires goes_on { GoesOn table.now (as_layer (Some layer) self.now) }
        requires stands { IsNumbered self.now.graph self.now.known.layers layer }
        requires few { self.now.at + length bytes.now < 2 ^ 32 }
        ensures ahead { IsAhead bytes.now table.now layer self.now (take result.count planned.new) result.layer result.bytes }
        ensures within { result.bytes ≤ length bytes.now }
        ensures noted { result.count ≤ length planned.old }
    {
        self.graph.is_graph();
        let mut outlook = Outlook {
            layer,
            bytes: 0,
            quiet: self.search.quiet,
            count: 0,
        };
        while outlook.bytes < bytes.len() && outlook.quiet < QUIET {
            match self.follow(table, layer, bytes, outlook, planned) {
                Some(next) => outlook = next,
                None => return outlook,
            }
        }
        outlook
    }

    /// Follows what is entered for the next byte, if something is, and notes its program, if it is one and there is room.
    #[inline(always)]
    fn follow(
        &self,
        table: &Table<'_>,
        layer: usize,
        bytes: &[u8],
        outlook: Outlook,
        planned: &mut [Planned],
    ) -> Option<Outlook>
        requires goes_on { GoesOn table.now (as_layer (Some layer) self.now) }
        requires ahead { IsAhead bytes.now table.now layer self.now (take outlook.count planned.old) outlook.layer outlook.bytes }
        requires left { outlook.bytes < length bytes.now }
        requires noted { outlook.count ≤ length planned.old }
        requires few { self.now.at + length bytes.now < 2 ^ 32 }
        ensures ahead { IfSome result (λ o. IsAhead bytes.now table.now layer self.now (take o.count planned.new) o.layer o.bytes) }
        ensures next { IfSome result (λ o. o.bytes ≡ outlook.bytes + 1) }
        ensures noted { IfSome result (λ o. o.count ≤ length planned.old) }
        ensures nothing { result ≡ None → planned.new ≡ planned.old }
    {
        match self.known.entry(outlook.layer, bytes[outlook.bytes]) {
            Entry::Glide(next) => Some(self.led(outlook, next as usize, outlook.count)),
            Entry::Run(step) => {
                if outlook.count >= planned.len() {
                    return None;
                }
                planned[outlook.count] = Planned {
                    at: self.at + outlook.bytes as u32,
                    program: step,
                };
                let next = self.known.steps.next(step as usize);
                Some(self.led(outlook, next, outlook.count + 1))
            }
            Entry::Unknown => None,
        }
    }

    /// One byte further, in the layer of this number, where so many programs have been noted.
    #[inline(always)]
    fn led(&self, outlook: Outlook, layer: usize, count: usize) -> Outlook
        requires { self.now.at + outlook.bytes < 2 ^ 32 }
        ensures layer { result.layer ≡ layer }
        ensures bytes { result.bytes ≡ outlook.bytes + 1 }
        ensures count { result.count ≡ count }
    {
        let bytes = outlook.bytes + 1;
        let quiet = self.search.quiet_at(
            Some(outlook.layer),
            Some(layer),
            outlook.quiet,
            self.at as usize + bytes,
        );
        Outlook {
            layer,
            bytes,
            quiet,
            count,
        }
    }

    /// Reads a byte of which nothing is known of the layer: source by source, and what they do is kept. A layer that is new, and
    /// waits, is searched at once.
    #[cold]
    #[inline(never)]
    fn read_unknown<L: Ledger>(
        &mut self,
        table: &mut Table<'_>,
        layer: Option<usize>,
        byte: u8,
        steps: &mut Steps<L>,
    ) -> Result<Option<usize>, TableFault>
        requires goes_on { GoesOn table.old (as_layer layer self.old) }
        requires stands { StandsIn table.old self.old.graph self.old.known layer }
        requires few { self.old.at + 1 < 2 ^ 32 }
        ensures read { IfOk result (λ next. PassReads (byte_at self.old.at byte ∷ []) table.old
            (as_layer layer self.old) steps.old table.new (as_layer next self.new) steps.new) }
        ensures at { OnOk result (self.new.at ≡ self.old.at + 1) }
        ensures stands { IfOk result (λ next. StandsIn table.new self.new.graph self.new.known next) }
        ensures given_up { IfErr result
            (GivesUp (byte_at self.old.at byte ∷ []) table.old (as_layer layer self.old) steps.old table.new steps.new) }
    {
        let layers = self.known.layers.len();
        self.name(layer);
        let next = match self.read_named(table, layer, byte, steps) {
            Ok(next) => next,
            Err(fault) => return Err(fault),
        };
        self.graph.is_graph();
        let is_new = self.known.layers.len() > layers;
        self.search.fresh = is_new && waits(table, &self.graph);
        self.search.quiet = if self.search.fresh {
            QUIET
        } else {
            let at = self.at as usize;
            self.search.quiet_at(layer, next, self.search.quiet, at)
        };
        Ok(next)
    }

    /// As `read_unknown`, where the graph has the names of its sets.
    fn read_named<L: Ledger>(
        &mut self,
        table: &mut Table<'_>,
        layer: Option<usize>,
        byte: u8,
        steps: &mut Steps<L>,
    ) -> Result<Option<usize>, TableFault>
        requires goes_on { GoesOn table.old self.old }
        requires stands { Stands table.old self.old.graph self.old.known layer }
        requires few { self.old.at + 1 < 2 ^ 32 }
        ensures read { OnOk result (PassReads (byte_at self.old.at byte ∷ []) table.old self.old steps.old table.new self.new steps.new) }
        ensures at { OnOk result (self.new.at ≡ self.old.at + 1) }
        ensures stands { IfOk result (Stands table.new self.new.graph self.new.known) }
        ensures given_up { IfErr result (GivesUp (byte_at self.old.at byte ∷ []) table.old self.old steps.old table.new steps.new) }
    {
        match layer {
            Some(_) => {}
            None => {
                if self.known.stays.contains(byte) {
                    self.at += 1;
                    return Ok(None);
                }
            }
        }
        if let Err(fault) = self.step_byte(table, byte, steps) {
            return Err(fault);
        }
        Ok(self.known.note(table, &self.graph, layer, byte))
    }
}
