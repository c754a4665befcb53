//! How a connection begins.
ghost use Rattle.std.specs.Prelude.{◌≡◌, ◌⊎◌, ℕ, Bool, List, Some, true, false, IfOk, IfErr, OnOk, OnErr};
ghost use Rattle.std.specs.List.{flat_map};
ghost use Rattle.spk_edge.specs.Sealing.{bytes_of};
ghost use Rattle.spk_edge.specs.Patch.{IsDone, plain_input};
ghost use Rattle.spk_edge.specs.View.{NodeData};
ghost use Rattle.spk_edge_rules.specs.Inputs as inputs;
ghost use Rattle.spk_edge_app.specs.Calls.{IsBadLogin, IsOpened, IsUnopened, IsUntold};
ghost use Rattle.spk_edge_app.specs.Step.{IsConnecting, IsConnectingIf, bytes_in, connected, sending, told};

use crate::app::EdgeApp;
use crate::fault::EdgeAppFault;
use spk_edge::Out;
use spk_login::with_login;

impl EdgeApp {
    /// The bytes of CONNECT, with the user name and the password where there are some.
    fn connecting(&self, packets: &Vec<Vec<u8>>) -> Result<Vec<u8>, EdgeAppFault>
        ensures said { IfOk result (λ v. IsConnecting self.now.login
            (flat_map bytes_of packets.now.items) v.items) }
        ensures refused { IfErr result (λ e. (e ≡ EdgeAppFault.NoMemory)
            ⊎ IsBadLogin self.now.login (flat_map bytes_of packets.now.items) e) }
    {
        let connect = packets.as_slice().concat(self.alloc)?;
        match &self.login {
            Some(login) => Ok(with_login(
                self.alloc,
                &connect,
                login.user.as_str(),
                &login.password,
            )?),
            None => Ok(connect),
        }
    }

    /// The node opened a session: its CONNECT is sent. Where it can't be sent the connection is given up.
    fn connect(&mut self, out: Out, now: u64) -> Result<(), EdgeAppFault>
        ensures sent { OnOk result ((bytes : List ℕ) × (sent : Bool)
            × IsConnectingIf sent self.old.login (bytes_in out) bytes
            × (self.new ≡ sending sent bytes out.close now (told self.old.node out self.old))) }
        ensures refused { IfErr result (IsBadLogin self.old.login (bytes_in out)) }
        ensures dropped { OnErr result (self.new
            ≡ sending false (bytes_in out) out.close now (told self.old.node out self.old)) }
    {
        let Out {
            packets,
            writes,
            close,
        } = out;
        self.note(writes);
        match self.connecting(&packets) {
            Ok(bytes) => {
                let sent = self.send(&bytes);
                self.end(sent, close, now);
                Ok(())
            }
            Err(EdgeAppFault::NoMemory) => {
                self.give_up(now);
                Ok(())
            }
            Err(fault) => {
                self.give_up(now);
                Err(fault)
            }
        }
    }

    /// The node opens a session.
    fn open(&mut self, now: u64) -> Result<Out, EdgeAppFault>
        ensures opened { IfOk result (λ out. (n : NodeData)
            × IsDone self.old.node (plain_input now inputs.Open) n out
            × (self.new ≡ record self.old { node = n })) }
        ensures refused { IfErr result (IsUntold self.old (plain_input now inputs.Open)) }
        ensures err { OnErr result (self.new ≡ self.old) }
    {
        match self.node.open(now) {
            Ok(out) => return Ok(out),
            Err(fault) => return Err(fault.into()),
        }
    }

    /// The connection begins.
    fn begin(&mut self, now: u64)
        ensures { self.new ≡ connected now self.old }
    {
        self.connection.opened(now);
        self.closing = None;
    }

    /// The TCP connection stands: the node opens a session (`EdgeNode::open`), and its CONNECT waits to be written, behind its record. Where there is no
    /// memory for CONNECT the connection is given up.
    ///
    /// Refused with Open (113) exactly where there is a connection, then with Stopped (114) exactly where the node has stopped, and with what the node
    /// refuses (Edge, 115): nothing changes then. With Login (116) where the user name and the password can't be put in: then the connection is given up.
    pub fn opened(&mut self, now: u64) -> Result<(), EdgeAppFault>
        ensures opened { OnOk result (IsOpened self.old now self.new) }
        ensures refused { IfErr result (IsUnopened self.old now self.new) }
    {
        if self.connection.is_open() {
            return Err(EdgeAppFault::Open);
        }
        if self.stopped {
            return Err(EdgeAppFault::Stopped);
        }
        match self.open(now) {
            Ok(out) => {
                self.begin(now);
                self.connect(out, now)
            }
            Err(fault) => Err(fault),
        }
    }
}
