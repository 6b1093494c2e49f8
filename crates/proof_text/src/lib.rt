//! Writes the certificate of what a search found, by one worker or several, or makes it as a value.
//!
//! The duals of a stored cut are computed again, one at a time (`dual_lender`). [`write_found`] writes the text, on
//! one thread or by workers. Each worker has a workspace, and writes the texts of some origins of some cuts.
//! [`certificate_of`] makes the whole certificate with all duals, for callers that read it again.
//!
//! Both serve each version of the text. From the second on, equal neighbours of one origin are one line. In the third,
//! Pareto-optimal cuts are marked, with a line for each dual and its proof on the next. [`found_text_is_certificate`]
//! says that the text is that certificate's, and [`stated_holds`] that what it states holds. Costs are in 10^-12.
//!
//! The lines of a cut, in order: `marks` (those of a text), `numbered` (a cut, as its lines are written), `dual_runs`,
//! `proved_duals`, `dual_lines` (the lines of a cut and of its duals). The lines of all cuts: `places` (the lines of
//! one origin of one cut), `memory_texts` (a text in memory), `stretches` (the work of a worker), `together` (the
//! lines of all cuts by workers). The whole: `headings` (the first lines), `written` (the text), `certificates` (the
//! value), `laws`.
#![tactic(auto)]

mod certificates;
mod dual_lines;
mod dual_runs;
mod headings;
mod laws;
mod marks;
mod memory_texts;
mod numbered;
mod places;
mod proved_duals;
mod stretches;
mod together;
mod written;

pub use certificates::certificate_of;
pub use laws::{found_text_is_certificate, stated_holds, stated_is_unmarked};
pub use together::Workers;
pub use written::{Finding, write_found};
