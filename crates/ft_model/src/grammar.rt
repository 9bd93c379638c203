//! The grammar of a schedule's text is only a definition, `specs/Grammar.antt`. Here are laws about it, and texts that were worked out by hand. Nothing here
//! runs; each function is a theorem.

ghost use Rattle.std.specs.Prelude.{◌≡◌, ℕ, true, false, None, Some, List, [], ◌∷◌, codes, Ok, Err};
ghost use Rattle.ft_model.specs.Accepted.{IsAccepted};
ghost use Rattle.ft_model.specs.Grammar.{read_text};
ghost use Rattle.ft_model.specs.Grammar.Refusal.{BadLine};
ghost use Rattle.ft_model.specs.Legal.{start_of};
ghost use Rattle.ft_model.specs.Playable.{IsPlayable};
ghost use Rattle.ft_model.specs.Readable.{FitsSchedule};
ghost use Rattle.ft_model.specs.World.{IsStart};
ghost use Rattle.ft_model.specs.declared.event.Event.TheVariants.{Boot, Crash, Tick, Deliver, Flip, Begin, Send, Fin, Ack, Reset, Stop};
ghost use Rattle.ft_model.specs.declared.schedule.LineWhy.TheVariants as why;
ghost use Rattle.ft_model.specs.declared.schedule.Schedule.{Schedule};
ghost use Rattle.ft_model.specs.declared.schedule.Script.TheVariants.{Bytes, Fill};
ghost use Rattle.ft_model.specs.declared.schedule.ServiceKind.TheVariants.{Echo, Meter};
ghost use Rattle.tcp_rules.specs.declared.profile.Profile.TheVariants.{Plain, Wan};

/// Texts and what they spell: a schedule without clients and events, one in which a client says hello to an echo service, one of two clients and the other
/// kinds of events, one of two loggers of which both are asked to stop, two in which the server marks the log, three whose server has the profile for wide-area
/// networks, two whose server lasts, and refused lines.
pub fn worked_texts()
    ensures empty { read_text (codes "service echo\nserver 192.0.2.100:7\n")
        ≡ Ok (record {
          service = Echo;
          server = record { ip = 3221226084; port = 7 };
          profile = Plain;
          twin = false;
          marks = None;
          lasting = None;
          clients = [];
          events = [];
        }) }
    ensures first_path { read_text (codes "service echo\nserver 192.0.2.100:7\nclient 1 192.0.2.1:40000 1000 hex:68656c6c6f\nboot 1 5000\ndeliver 1\ndeliver 2\nopen 1 65535\ndeliver 3\ndeliver 4\ndeliver 5\ndeliver 6\nack 1 65535\ndeliver 7\nsend 1 0 5\ndeliver 8\ndeliver 10\ndeliver 12\ndeliver 11\ndeliver 14\ndeliver 15\n")
        ≡ Ok (record {
          service = Echo;
          server = record { ip = 3221226084; port = 7 };
          profile = Plain;
          twin = false;
          marks = None;
          lasting = None;
          clients = record { key = record { ip = 3221225985; port = 40000 }; isn = 1000; script = Bytes (codes "hello") } ∷ [];
          events = Boot 1 5000 ∷ Deliver 1 ∷ Deliver 2 ∷ Begin 1 65535 ∷ Deliver 3 ∷ Deliver 4 ∷ Deliver 5 ∷ Deliver 6 ∷ Ack 1 65535
              ∷ Deliver 7 ∷ Send 1 0 5 ∷ Deliver 8 ∷ Deliver 10 ∷ Deliver 12 ∷ Deliver 11 ∷ Deliver 14 ∷ Deliver 15 ∷ [];
        }) }
    ensures nothing { read_text [] ≡ Err (BadLine 1 why.Place) }
    ensures comment { read_text (codes "# a comment\n\nservice echo\n # none") ≡ Err (BadLine 4 why.Word) }
    ensures few_words { read_text (codes "service echo\nserver 192.0.2.100:7\nclient 1 192.0.2.1:40000 1000 hex:68656c6c6f\nsend x\n")
        ≡ Err (BadLine 4 why.Count) }
    ensures two_clients { read_text (codes "service meter\nserver 192.0.2.100:7\nclient 1 192.0.2.1:40000 1000 fill:9\nclient 2 192.0.2.1:40001 0 -\nboot 1 5000\ncrash\nboot 2 0\nflip 2 319\ntick\nfin 2\nreset 1\n")
        ≡ Ok (record {
          service = Meter;
          server = record { ip = 3221226084; port = 7 };
          profile = Plain;
          twin = false;
          marks = None;
          lasting = None;
          clients = record { key = record { ip = 3221225985; port = 40000 }; isn = 1000; script = Fill 9 }
              ∷ record { key = record { ip = 3221225985; port = 40001 }; isn = 0; script = Bytes [] } ∷ [];
          events = Boot 1 5000 ∷ Crash ∷ Boot 2 0 ∷ Flip 2 319 ∷ Tick ∷ Fin 2 ∷ Reset 1 ∷ [];
        }) }
    ensures two_loggers { read_text (codes "service echo\nserver 192.0.2.100:7\n# a pair\n  twin\nclient 1 192.0.2.1:40000 1000 hex:68656c6c6f\nboot 1 5000\nstop 1\nstop 02\n")
        ≡ Ok (record {
          service = Echo;
          server = record { ip = 3221226084; port = 7 };
          profile = Plain;
          twin = true;
          marks = None;
          lasting = None;
          clients = record { key = record { ip = 3221225985; port = 40000 }; isn = 1000; script = Bytes (codes "hello") } ∷ [];
          events = Boot 1 5000 ∷ Stop 1 ∷ Stop 2 ∷ [];
        }) }
    ensures late_pair { read_text (codes "service echo\nserver 192.0.2.100:7\nclient 1 192.0.2.1:40000 1000 -\ntwin\n") ≡ Err (BadLine 4 why.Place) }
    ensures second_pair { read_text (codes "service echo\nserver 192.0.2.100:7\ntwin\ntwin x\n") ≡ Err (BadLine 4 why.Place) }
    ensures long_pair { read_text (codes "service echo\nserver 192.0.2.100:7\ntwin x\n") ≡ Err (BadLine 3 why.Count) }
    ensures early_pair { read_text (codes "service echo\ntwin\n") ≡ Err (BadLine 2 why.Place) }
    ensures marks { read_text (codes "service echo\nserver 192.0.2.100:7\n marks 0004 \nclient 1 192.0.2.1:40000 1000 -\n")
        ≡ Ok (record {
          service = Echo;
          server = record { ip = 3221226084; port = 7 };
          profile = Plain;
          twin = false;
          marks = Some 4;
          lasting = None;
          clients = record { key = record { ip = 3221225985; port = 40000 }; isn = 1000; script = Bytes [] } ∷ [];
          events = [];
        }) }
    ensures most_marks { read_text (codes "service echo\nserver 192.0.2.100:7\nmarks 1000\n")
        ≡ Ok (record {
          service = Echo;
          server = record { ip = 3221226084; port = 7 };
          profile = Plain;
          twin = false;
          marks = Some 1000;
          lasting = None;
          clients = [];
          events = [];
        }) }
    ensures no_marks { read_text (codes "service echo\nserver 192.0.2.100:7\nmarks 0\n") ≡ Err (BadLine 3 why.Number) }
    ensures rare_marks { read_text (codes "service echo\nserver 192.0.2.100:7\nmarks 1001\n") ≡ Err (BadLine 3 why.Number) }
    ensures bare_marks { read_text (codes "service echo\nserver 192.0.2.100:7\nmarks\n") ≡ Err (BadLine 3 why.Count) }
    ensures late_marks { read_text (codes "service echo\nserver 192.0.2.100:7\nboot 1 5000\nmarks 4\n") ≡ Err (BadLine 4 why.Place) }
    ensures second_marks { read_text (codes "service echo\nserver 192.0.2.100:7\nmarks 4\nmarks 4\n") ≡ Err (BadLine 4 why.Place) }
    ensures marked_pair { read_text (codes "service echo\nserver 192.0.2.100:7\nmarks 4\ntwin\n") ≡ Err (BadLine 4 why.Place) }
    ensures pair_with_marks { read_text (codes "service echo\nserver 192.0.2.100:7\ntwin\nmarks 4\n") ≡ Err (BadLine 4 why.Place) }
    ensures wide_area { read_text (codes "service echo\nserver 192.0.2.100:7\n profile  wan \nclient 1 192.0.2.1:40000 1000 -\nboot 1 5000\n")
        ≡ Ok (record {
          service = Echo;
          server = record { ip = 3221226084; port = 7 };
          profile = Wan;
          twin = false;
          marks = None;
          lasting = None;
          clients = record { key = record { ip = 3221225985; port = 40000 }; isn = 1000; script = Bytes [] } ∷ [];
          events = Boot 1 5000 ∷ [];
        }) }
    ensures wide_area_pair { read_text (codes "service echo\nserver 192.0.2.100:7\nprofile wan\ntwin\n")
        ≡ Ok (record {
          service = Echo;
          server = record { ip = 3221226084; port = 7 };
          profile = Wan;
          twin = true;
          marks = None;
          lasting = None;
          clients = [];
          events = [];
        }) }
    ensures wide_area_marks { read_text (codes "service echo\nserver 192.0.2.100:7\nprofile wan\nmarks 4\n")
        ≡ Ok (record {
          service = Echo;
          server = record { ip = 3221226084; port = 7 };
          profile = Wan;
          twin = false;
          marks = Some 4;
          lasting = None;
          clients = [];
          events = [];
        }) }
    ensures plain_profile { read_text (codes "service echo\nserver 192.0.2.100:7\nprofile plain\n") ≡ Err (BadLine 3 why.Word) }
    ensures loud_profile { read_text (codes "service echo\nserver 192.0.2.100:7\nprofile Wan\n") ≡ Err (BadLine 3 why.Word) }
    ensures bare_profile { read_text (codes "service echo\nserver 192.0.2.100:7\nprofile\n") ≡ Err (BadLine 3 why.Count) }
    ensures long_profile { read_text (codes "service echo\nserver 192.0.2.100:7\nprofile wan wan\n") ≡ Err (BadLine 3 why.Count) }
    ensures second_profile { read_text (codes "service echo\nserver 192.0.2.100:7\nprofile wan\nprofile wan\n") ≡ Err (BadLine 4 why.Place) }
    ensures second_bare_profile { read_text (codes "service echo\nserver 192.0.2.100:7\nprofile wan\nprofile\n") ≡ Err (BadLine 4 why.Place) }
    ensures second_plain_profile { read_text (codes "service echo\nserver 192.0.2.100:7\nprofile wan\nprofile plain\n") ≡ Err (BadLine 4 why.Word) }
    ensures early_profile { read_text (codes "service echo\nprofile wan\n") ≡ Err (BadLine 2 why.Place) }
    ensures profile_of_a_pair { read_text (codes "service echo\nserver 192.0.2.100:7\ntwin\nprofile wan\n") ≡ Err (BadLine 4 why.Place) }
    ensures profile_behind_marks { read_text (codes "service echo\nserver 192.0.2.100:7\nmarks 4\nprofile wan\n") ≡ Err (BadLine 4 why.Place) }
    ensures profile_behind_a_client { read_text (codes "service echo\nserver 192.0.2.100:7\nclient 1 192.0.2.1:40000 1000 -\nprofile wan\n")
        ≡ Err (BadLine 4 why.Place) }
    ensures profile_behind_an_event { read_text (codes "service echo\nserver 192.0.2.100:7\nboot 1 5000\nprofile wan\n") ≡ Err (BadLine 4 why.Place) }
    ensures lasting { read_text (codes "service echo\nserver 192.0.2.100:7\nlasting 2 0\nclient 1 192.0.2.1:40000 1000 -\nclient 2 192.0.2.1:40000 9000 -\n")
        ≡ Ok (record {
          service = Echo;
          server = record { ip = 3221226084; port = 7 };
          profile = Plain;
          twin = false;
          marks = None;
          lasting = Some (record { wait = 2; silence = 0 });
          clients = record { key = record { ip = 3221225985; port = 40000 }; isn = 1000; script = Bytes [] }
              ∷ record { key = record { ip = 3221225985; port = 40000 }; isn = 9000; script = Bytes [] } ∷ [];
          events = [];
        }) }
    ensures most_lasting { read_text (codes "service echo\nserver 192.0.2.100:7\nprofile wan\nlasting 100000 100000\n")
        ≡ Ok (record {
          service = Echo;
          server = record { ip = 3221226084; port = 7 };
          profile = Wan;
          twin = false;
          marks = None;
          lasting = Some (record { wait = 100000; silence = 100000 });
          clients = [];
          events = [];
        }) }
    ensures no_wait { read_text (codes "service echo\nserver 192.0.2.100:7\nlasting 0 0\n") ≡ Err (BadLine 3 why.Number) }
    ensures long_wait { read_text (codes "service echo\nserver 192.0.2.100:7\nlasting 100001 0\n") ≡ Err (BadLine 3 why.Number) }
    ensures long_silence { read_text (codes "service echo\nserver 192.0.2.100:7\nlasting 1 100001\n") ≡ Err (BadLine 3 why.Number) }
    ensures wait_alone { read_text (codes "service echo\nserver 192.0.2.100:7\nlasting 1\n") ≡ Err (BadLine 3 why.Count) }
    ensures early_lasting { read_text (codes "service echo\nlasting 1 0\n") ≡ Err (BadLine 2 why.Place) }
    ensures second_lasting { read_text (codes "service echo\nserver 192.0.2.100:7\nlasting 1 0\nlasting 1 0\n") ≡ Err (BadLine 4 why.Place) }
    ensures lasting_pair { read_text (codes "service echo\nserver 192.0.2.100:7\nlasting 1 0\ntwin\n") ≡ Err (BadLine 4 why.Place) }
    ensures lasting_with_marks { read_text (codes "service echo\nserver 192.0.2.100:7\nmarks 4\nlasting 1 0\n") ≡ Err (BadLine 4 why.Place) }
    ensures profile_behind_lasting { read_text (codes "service echo\nserver 192.0.2.100:7\nlasting 1 0\nprofile wan\n") ≡ Err (BadLine 4 why.Place) }
    ensures late_lasting { read_text (codes "service echo\nserver 192.0.2.100:7\nboot 1 5000\nlasting 1 0\n") ≡ Err (BadLine 4 why.Place) }
    ensures same_address { read_text (codes "service echo\nserver 192.0.2.100:7\nclient 1 192.0.2.1:40000 1000 -\nclient 2 192.0.2.1:40000 9000 -\n")
        ≡ Err (BadLine 4 why.Address) }
    ensures server_address { read_text (codes "service echo\nserver 192.0.2.100:7\nlasting 1 0\nclient 1 192.0.2.100:7 1000 -\n")
        ≡ Err (BadLine 4 why.Address) }
    ensures same_number { read_text (codes "service echo\nserver 192.0.2.100:7\nlasting 2 0\nclient 1 192.0.2.1:40000 1000 -\nclient 2 192.0.2.1:40000 1000 -")
        ≡ Err (BadLine 5 why.Address) }
    ensures third_logger { read_text (codes "service echo\nserver 192.0.2.100:7\nstop 3\n") ≡ Err (BadLine 3 why.Number) }
{}

/// A schedule that a text spells has at most 16 clients and 100,000 events, its scripts have at most 2^24 bytes, and the addresses of clients and server
/// all differ; at a server that lasts, clients may have the same with different initial sequence numbers.
pub fn accepted_schedules_keep_the_limits()
    ensures { (text : List ℕ) (schedule : Schedule) → read_text text ≡ Ok schedule → IsAccepted schedule }
{}

/// A schedule that a text spells can be played: its clients' addresses differ from the server's and, unless the server lasts, from one another, those of one
/// address have different initial sequence numbers, all numbers are modulo 2^32, their scripts have at most 2^24 bytes, and the numbers of its events fit their
/// types.
pub fn accepted_schedules_can_be_played()
    ensures { (text : List ℕ) (schedule : Schedule) → read_text text ≡ Ok schedule → IsPlayable schedule }
{}

/// A trace can start from a schedule that can be played, unless its server lasts: no client has moved, nothing is logged, nothing was sent, and the server is
/// down.
pub fn playable_schedules_start()
    ensures { (schedule : Schedule) → IsPlayable schedule → schedule.lasting ≡ None → IsStart (start_of schedule) }
{}

/// The numbers of a schedule that a text spells fit their types: addresses have 32 bits, ports 16, bytes eight, and other numbers at most 64.
pub fn accepted_schedules_fit()
    ensures { (text : List ℕ) (schedule : Schedule) → read_text text ≡ Ok schedule → FitsSchedule schedule }
{}
