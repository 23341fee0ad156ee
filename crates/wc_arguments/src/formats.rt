ghost use Rattle.std.specs.Prelude.{◌≡◌, [], ◌∷◌, Some, None, true, false, codes};
ghost use Rattle.clap.specs.Words.{Text};
ghost use Rattle.clap.specs.declared.error.kind.ErrorKind.TheVariants as kind;
ghost use Rattle.wc_diag_texts.specs.declared.format.Format.TheVariants.{Long};
ghost use Rattle.wc_arguments.specs.Asked.{Ask, Asks, IsPlain, IsRefused, arguments, asked, check, cut, decode, explain, job, line, run, show, trace};

/// What the plain command lines ask for, if each file is an argument that does not begin with a hyphen.
pub fn plain_formats()
    ensures job { (name : Text) → Ask (name ∷ []) job Long }
    ensures check { (name program : Text) → IsPlain program
        → Ask (name ∷ codes "check" ∷ program ∷ []) (check program None false false) Long }
    ensures paths { (name program : Text) → IsPlain program
        → Ask (name ∷ codes "check" ∷ codes "--path" ∷ program ∷ [])
        (check program None true false) Long }
    ensures preview { Asks (codes "check --next b a")
        (check (codes "a") (Some (codes "b")) false false) }
    ensures deny { (name program : Text) → IsPlain program
        → Ask (name ∷ codes "check" ∷ codes "--deny-warnings" ∷ program ∷ [])
        (check program None false true) Long }
    ensures run { (name plate program log : Text) → IsPlain plate → IsPlain program → IsPlain log
        → asked (name ∷ codes "run" ∷ codes "--plate" ∷ plate ∷ codes "--program" ∷ program
        ∷ codes "--log" ∷ log ∷ []) ≡ run plate program None log None None false }
    ensures last { Asks (codes "run --last 10 --log a --program b --plate=c")
        (run (codes "c") (codes "b") None (codes "a") (Some 10) None false) }
    ensures next { Asks (codes "run --plate a --program b --next c --log d")
        (run (codes "a") (codes "b") (Some (codes "c")) (codes "d") None None false) }
    ensures watch { (name : Text)
        → asked (arguments name (codes "run --plate a --program b --log c --watch d,t.ET"))
        ≡ run (codes "a") (codes "b") None (codes "c") None (Some (codes "d,t.ET")) false }
    ensures changes { (name : Text)
        → asked (arguments name (codes "run --plate a --program b --log c --watch d --changes"))
        ≡ run (codes "a") (codes "b") None (codes "c") None (Some (codes "d")) true }
    ensures changes_alone { IsRefused (codes "run --plate a --program b --log c --changes")
        kind.MissingRequiredArgument }
    ensures trace { Asks (codes "trace --plate a --program b --log c --at 650")
        (trace (codes "a") (codes "b") None (codes "c") (Some 650) None None None) }
    ensures show { Asks (codes "show --plate a --log b")
        (show (codes "a") None None (codes "b") None) }
    ensures drawn { Asks (codes "show --plate a --program b --log c")
        (show (codes "a") (Some (codes "b")) None (codes "c") None) }
    ensures redrawn { Asks (codes "show --plate a --program b --next c --log d")
        (show (codes "a") (Some (codes "b")) (Some (codes "c")) (codes "d") None) }
    ensures drawn_names { Asks (codes "show --plate a --program b --log c --watch d")
        (show (codes "a") (Some (codes "b")) None (codes "c") (Some (codes "d"))) }
    ensures next_alone { IsRefused (codes "show --plate a --next b --log c")
        kind.MissingRequiredArgument }
    ensures many_names { IsRefused
        (codes "show --plate a --program b --log c --watch d,e,f,g,h") kind.InvalidValue }
    ensures line { (name plate log : Text) → IsPlain plate → IsPlain log
        → Ask (name ∷ codes "line" ∷ codes "--plate" ∷ plate ∷ codes "--log" ∷ log ∷ [])
        (line plate log) Long }
    ensures cut { (name plate log : Text) → IsPlain plate → IsPlain log
        → Ask (name ∷ codes "cut" ∷ codes "--plate" ∷ plate ∷ codes "--log" ∷ log ∷ [])
        (cut plate log None) Long }
    ensures cut_at { Asks (codes "cut --plate a --log b --at 5000")
        (cut (codes "a") (codes "b") (Some 5000)) }
    ensures decode { Asks (codes "decode") (decode false) }
    ensures table { Asks (codes "decode --csv") (decode true) }
    ensures explain { Asks (codes "explain 403") (explain (codes "403")) }
{}
