//! An opened tube: it names its keep-outs, and is launched.
ghost use Rattle.std.specs.Prelude.{◌≡◌, ◌<◌, MatchResult};
ghost use Rattle.tube.specs.Flights.{flight_of, launched};
ghost use Rattle.tube.specs.Tables.{table_of, empty_table, with_keep_out, ChangesOnlyTable};

use super::fault::Fault;
use super::judging::judge;
use super::launched::Launched;
use super::table::KeepOutTable;
use domains::domain::Domain;
use dynamics::keep_out::KeepOut;
use dynamics::model::Model;
use dynamics::start::Start;

#[derive(Drop)]
pub struct Opened<D> {
    model: Model,
    start: Start,
    domain: D,
    table: KeepOutTable,
}

impl<D: Domain> Opened<D> {
    /// A tube of a model from a start, over a domain, that watches nothing yet.
    pub fn open(model: Model, start: Start, domain: D) -> Opened<D>
        ensures { (result.model ≡ model) × (result.start ≡ start) × (result.domain ≡ domain)
            × (table_of result.table ≡ empty_table) }
    {
        Opened {
            model,
            start,
            domain,
            table: KeepOutTable::new(),
        }
    }

    /// Watches one keep-out more, numbered from 0.
    pub fn watch(&mut self, keep_out: &KeepOut) -> Result<(), Fault>
        ensures table { MatchResult result
            (λ _. (self.old.table.count < 16)
            × (table_of self.new.table
            ≡ with_keep_out (table_of self.old.table) keep_out.now))
            (λ e. (e ≡ Fault.WatchLimit) × (self.old.table.count ≡ 16)
            × (self.new.table ≡ self.old.table)) }
        ensures others { ChangesOnlyTable self.old self.new }
    {
        self.table.add(keep_out)
    }

    /// Fills the domain and judges step 0.
    pub fn launch(self) -> Launched<D>
        ensures flight { flight_of D.form result
            ≡ launched D.sense self.start (D.form self.domain) (table_of self.table) }
        ensures model { result.model ≡ self.model }
    {
        let Opened {
            model,
            start,
            mut domain,
            mut table,
        } = self;
        domain.fill(&start);
        judge(&domain, &mut table, 0);
        Launched {
            model,
            domain,
            table,
            steps: 0,
        }
    }
}
