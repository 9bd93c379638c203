//! Laws of the clients. Nothing here runs; each function is a theorem.

ghost use Rattle.std.specs.Prelude.{Some, []};
ghost use Rattle.ft_model.specs.Client.{Client, IsMove};
ghost use Rattle.ft_model.specs.Client.ClientKind.{Live};
ghost use Rattle.ft_model.specs.WorkedRuns.Common.{client_segment, client_with, hello_text};
ghost use Rattle.ft_model.specs.WorkedRuns.FirstPath;

/// By an example: a scripted client that has sent its SYN doesn't answer an acknowledgement by a RST with that number, and a scripted client's SYN offers no
/// segment size. A live client may send such a RST, and its state stays the same.
pub fn scripted_clients_refuse_nothing()
    ensures refusal { (later : Client) → IsMove FirstPath.opening (client_segment 4 5 0 0 []) later → ⊥ }
    ensures offer { (later : Client)
        → let syn = client_segment 2 1000 0 65535 [] in IsMove (client_with hello_text) (record syn { head = record syn.head { mss = Some 1460 } }) later → ⊥ }
    ensures live { IsMove (record FirstPath.opening { kind = Live }) (client_segment 4 5 0 0 []) (record FirstPath.opening { kind = Live }) }
{}
