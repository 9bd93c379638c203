//! Laws of complete runs. They are about the services' definitions, and don't repeat them. Each is a function with an empty body, whose contract is the law.

ghost use Rattle.std.specs.Prelude.{◌≡◌, ◌≢◌, ℕ, ◌^◌, ◌-◌, Bool, List, codes, length};
ghost use Rattle.server_trait.specs.Service.{fold};
ghost use Rattle.sample_servers.specs.Cuts.{joined, NoneEmpty, chunks_of, IgnoresCuts};
ghost use Rattle.sample_servers.specs.Echo.{echo_machine};
ghost use Rattle.sample_servers.specs.Line.{LineState, numbered, line_after, line_machine};
ghost use Rattle.sample_servers.specs.Transfer.{pattern, total_size, transfer_machine};

/// Echo's whole output is its input, and it closes where the input ends.
pub fn echo_returns_its_input()
    ensures output { (chunks : List (List ℕ)) (ended : Bool) → NoneEmpty chunks → (fold echo_machine (chunks_of chunks ended)).output ≡ joined chunks }
    ensures closed { (chunks : List (List ℕ)) (ended : Bool) → NoneEmpty chunks → (fold echo_machine (chunks_of chunks ended)).closed ≡ ended }
{}

/// Line writes the same, however its input is cut.
pub fn line_ignores_cuts()
    ensures { IgnoresCuts line_machine }
{}

/// At the maximum of 64 bits the line number stays. No run is that long, so the law is about a state and not about a run.
pub fn line_number_stands_still()
    ensures state { (held : List ℕ) → (line_after (record { finished = 2 ^ 64 - 1; held = held }) (codes "\n")).next.finished ≡ 2 ^ 64 - 1 }
    ensures output { (held : List ℕ) → held ≢ codes "quit"
        → (line_after (record { finished = 2 ^ 64 - 1; held = held }) (codes "\n")).output ≡ numbered (2 ^ 64 - 1) held }
{}

/// Transfer writes the same, however its input is cut.
pub fn transfer_ignores_cuts()
    ensures { IgnoresCuts transfer_machine }
{}

/// Transfer answers each request before the first 0 with as many bytes as it says, at most 2,047, and they are one pattern throughout.
pub fn transfer_gives_what_is_asked()
    ensures size { (chunks : List (List ℕ)) (ended : Bool) → NoneEmpty chunks
        → length (fold transfer_machine (chunks_of chunks ended)).output ≡ total_size (joined chunks) }
    ensures pattern { (chunks : List (List ℕ)) (ended : Bool) → NoneEmpty chunks
        → (fold transfer_machine (chunks_of chunks ended)).output ≡ pattern 0 (total_size (joined chunks)) }
{}
