// Transactions that go from client to client.
ghost use Rattle.std.specs.Prelude.{IsTrue};
ghost use Rattle.script_model.specs.{declared.script.Op.TheVariants.{Release, Takeover}, Step.step};
ghost use Rattle.iso_model.specs.Labels.{is_label};

use crate::attached::{Spot, claim, index_under_label};
use crate::machine::Machine;
use iso_disk::Disk;
use iso_model::Label;
use script_model::{Reply, Stop};

impl<D: Disk> Machine<D> {
    ghost use Rattle.iso_machine.specs.{Answering.{Always, AnswersFrom}, Standing.IsMachine};

    /// A client's transaction goes under a label, if no other is there. Without memory it stays where it is.
    pub(crate) fn release(&mut self, client: u8, label: &Label) -> Result<Reply, Stop>
        requires { IsMachine D.state self.old }
        ensures { IsTrue (is_label label.now) → AnswersFrom Always D.state self.old self.new (λ W. step W client (Release label.now)) result }
    {
        let Some(i) = self.place_at(client) else {
            return Ok(Reply::NotInTx);
        };
        let tx = self.live[i].tx;
        let Ok(found) = claim(&mut self.finder, &self.live, label, tx) else {
            return Err(Stop::Memory);
        };
        if let Some(_) = found {
            return Ok(Reply::LabelTaken);
        }
        self.live[i].spot = Spot::Label(label.copy());
        self.finder.set_client(client, None);
        Ok(Reply::Done)
    }

    /// A client without a transaction gets the one under a label.
    pub(crate) fn takeover(&mut self, client: u8, label: &Label) -> Result<Reply, Stop>
        requires { IsMachine D.state self.old }
        ensures { AnswersFrom Always D.state self.old self.new (λ W. step W client (Takeover label.now)) result }
    {
        if let Some(_) = self.place_at(client) {
            return Ok(Reply::InTx);
        }
        let number = self.finder.take_label(label);
        let Some(i) = index_under_label(number, &self.live, label) else {
            return Ok(Reply::NoHandle);
        };
        let attached = &mut self.live[i];
        attached.spot = Spot::Client(client);
        self.finder.set_client(client, Some(attached.tx));
        Ok(Reply::Began(attached.work.begun_at()))
    }
}
