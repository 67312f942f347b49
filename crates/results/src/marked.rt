// A network with its labels and a mark for each root, known to have a place for each gate in both rows.
ghost use Rattle.std.specs.Prelude.{◌≤◌, length};

use frames::Refusal;
use labelling::labelled::Labelled;
use rows::Header;
use rows::network::Network;

// A network with labels and marks, one a gate at least.
#[derive(Clone, Copy)]
pub(crate) struct Marked<'a> {
    pub(crate) labelled: Labelled<'a>,
    pub(crate) marks: &'a [u8],
    ghost enough: { labelled.network.header.gates ≤ length marks.now },
}

impl<'a> Marked<'a> {
    ghost use Rattle.results.specs.steps.Marked.{MarkedFound};

    // What a header and three rows that were handed over hold, or what refuses them: what the text that header and row spell is refused
    // for, and then 10 for a row of labels or marks with fewer places than gates.
    pub(crate) fn find(
        header: Header,
        row: &'a [u16],
        labels: &'a [u32],
        marks: &'a [u8],
    ) -> Result<Marked<'a>, Refusal>
        ensures { MarkedFound header row.now labels.now marks.now result }
    {
        let network = Network::find(header, row)?;
        let labelled = Labelled::new(network, labels)?;
        if marks.len() < network.header.gates {
            return Err(Refusal::no_room());
        }
        Ok(Marked { labelled, marks })
    }
}
