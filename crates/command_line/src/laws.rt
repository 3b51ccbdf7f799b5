//! Laws over the definition of a line, each the contract of a function without a body.
ghost use Rattle.std.specs.Prelude.{◌≡◌, [], ◌∷◌, None, Some, codes, true, false};
ghost use Rattle.command_line.specs.Line.{settings_of};
ghost use Rattle.command_line.specs.Laws.{AllSettingsCanBeGiven, GivenSettingsAreAllowed};
ghost use Rattle.command_line.specs.Laws.{NoArgumentsGiveTheDefaults, OptionsStandInAnyOrder};
ghost use Rattle.command_line.specs.Laws.{ValuesStandApartOrJoined};

/// Whatever arguments give is within the limits, with at most the workers at hand, and all such
/// settings can be given; no arguments give the default settings.
pub fn given_settings()
    ensures allowed { GivenSettingsAreAllowed }
    ensures all { AllSettingsCanBeGiven }
    ensures defaults { NoArgumentsGiveTheDefaults }
{}

/// A value is the next argument or comes after `=`, and options come in any order.
pub fn forms()
    ensures apart_or_joined { ValuesStandApartOrJoined }
    ensures any_order { OptionsStandInAnyOrder }
{}

/// Which settings some lines give.
#[tactic(auto, unfolding(crate::specs::Line::settings_of))]
pub fn worked_lines()
    ensures none { settings_of 32 [] ≡ Some (record {
      res = 300;
      sheet = record { width = 2550; height = 3300; left = 300; top = 300; tolerant = false };
      workers = 1;
      cache = 16;
      room = 2147483648;
      sample = None;
      packed = false;
      trace = false;
      summary = false;
    }) }
    ensures joined { settings_of 32 (codes "--res=300" ∷ []) ≡ settings_of 32 [] }
    ensures apart { settings_of 32 (codes "--res" ∷ codes "300" ∷ []) ≡ settings_of 32 [] }
    ensures room { settings_of 32 (codes "--room=2147483648" ∷ []) ≡ settings_of 32 [] }
    ensures zeros { settings_of 32 (codes "--res" ∷ codes "0000300" ∷ []) ≡ settings_of 32 [] }
    ensures fine { settings_of 32 (codes "--res=4800" ∷ []) ≡ Some (record {
      res = 4800;
      sheet = record { width = 20000; height = 20000; left = 4800; top = 4800; tolerant = false };
      workers = 1;
      cache = 16;
      room = 2147483648;
      sample = None;
      packed = false;
      trace = false;
      summary = false;
    }) }
    ensures odd { settings_of 1 (codes "--res=1" ∷ codes "--summary" ∷ []) ≡ Some (record {
      res = 1;
      sheet = record { width = 8; height = 11; left = 1; top = 1; tolerant = false };
      workers = 1;
      cache = 16;
      room = 2147483648;
      sample = None;
      packed = false;
      trace = false;
      summary = true;
    }) }
    ensures mixed { settings_of 2 (codes "--trace" ∷ codes "--width" ∷ codes "8"
        ∷ codes "--sample=3" ∷ codes "--res=4800" ∷ codes "--workers" ∷ codes "2"
        ∷ codes "--room" ∷ codes "0000000006" ∷ [])
        ≡ Some (record {
          res = 4800;
          sheet = record { width = 8; height = 20000; left = 4800; top = 4800; tolerant = false };
          workers = 2;
          cache = 16;
          room = 6;
          sample = Some 3;
          packed = false;
          trace = true;
          summary = false;
        }) }
    ensures every { settings_of 32 (codes "--summary" ∷ codes "--packed" ∷ codes "--trace"
        ∷ codes "--sample" ∷ codes "1000" ∷ codes "--cache" ∷ codes "256" ∷ codes "--room=0"
        ∷ codes "--workers=32"
        ∷ codes "--top=0" ∷ codes "--left=20000" ∷ codes "--tolerant" ∷ codes "--height=20000"
        ∷ codes "--width=1" ∷ codes "--res=1" ∷ [])
        ≡ Some (record {
          res = 1;
          sheet = record { width = 1; height = 20000; left = 20000; top = 0; tolerant = true };
          workers = 32;
          cache = 256;
          room = 0;
          sample = Some 1000;
          packed = true;
          trace = true;
          summary = true;
        }) }
{}

/// Arguments that aren't a line.
#[tactic(auto, unfolding(crate::specs::Line::settings_of))]
pub fn worked_refusals()
    ensures other { settings_of 32 (codes "page.dvi" ∷ []) ≡ None }
    ensures number { settings_of 32 (codes "300" ∷ []) ≡ None }
    ensures empty { settings_of 32 ([] ∷ []) ≡ None }
    ensures hyphens { settings_of 32 (codes "--" ∷ []) ≡ None }
    ensures hyphens_last { settings_of 32 (codes "--res=300" ∷ codes "--" ∷ []) ≡ None }
    ensures short_help { settings_of 32 (codes "-h" ∷ []) ≡ None }
    ensures help { settings_of 32 (codes "--help" ∷ []) ≡ None }
    ensures version { settings_of 32 (codes "--version" ∷ []) ≡ None }
    ensures shortened { settings_of 32 (codes "--tra" ∷ []) ≡ None }
    ensures other_case { settings_of 32 (codes "--RES=300" ∷ []) ≡ None }
    ensures twice { settings_of 32 (codes "--res" ∷ codes "300" ∷ codes "--res" ∷ codes "300"
        ∷ []) ≡ None }
    ensures packed_alone { settings_of 32 (codes "--packed" ∷ []) ≡ None }
    ensures switch_twice { settings_of 32 (codes "--trace" ∷ codes "--trace" ∷ []) ≡ None }
    ensures tolerant_twice { settings_of 32 (codes "--tolerant" ∷ codes "--tolerant" ∷ [])
        ≡ None }
{}

/// Values that options don't take.
#[tactic(auto, unfolding(crate::specs::Line::settings_of))]
pub fn worked_values()
    ensures missing { settings_of 32 (codes "--width" ∷ []) ≡ None }
    ensures next_option { settings_of 32 (codes "--res" ∷ codes "--trace" ∷ []) ≡ None }
    ensures empty_joined { settings_of 32 (codes "--res=" ∷ []) ≡ None }
    ensures empty_apart { settings_of 32 (codes "--res" ∷ [] ∷ []) ≡ None }
    ensures negative_joined { settings_of 32 (codes "--res=-1" ∷ []) ≡ None }
    ensures negative_apart { settings_of 32 (codes "--res" ∷ codes "-1" ∷ []) ≡ None }
    ensures plus { settings_of 32 (codes "--res=+300" ∷ []) ≡ None }
    ensures two_equals_signs { settings_of 32 (codes "--res=3=3" ∷ []) ≡ None }
    ensures eight_digits { settings_of 32 (codes "--res" ∷ codes "00000300" ∷ []) ≡ None }
    ensures eleven_digits { settings_of 32 (codes "--room" ∷ codes "00000000006" ∷ []) ≡ None }
    ensures switch_empty { settings_of 32 (codes "--trace=" ∷ []) ≡ None }
    ensures switch_value { settings_of 32 (codes "--trace=1" ∷ []) ≡ None }
    ensures switch_apart { settings_of 32 (codes "--trace" ∷ codes "1" ∷ []) ≡ None }
    ensures tolerant_empty { settings_of 32 (codes "--tolerant=" ∷ []) ≡ None }
    ensures tolerant_value { settings_of 32 (codes "--tolerant=1" ∷ []) ≡ None }
    ensures packed_value { settings_of 32 (codes "--sample=3" ∷ codes "--packed=1" ∷ [])
        ≡ None }
{}

/// Numbers outside their ranges.
#[tactic(auto, unfolding(crate::specs::Line::settings_of))]
pub fn worked_ranges()
    ensures no_resolution { settings_of 32 (codes "--res" ∷ codes "0" ∷ []) ≡ None }
    ensures resolution { settings_of 32 (codes "--res=4801" ∷ []) ≡ None }
    ensures no_width { settings_of 32 (codes "--width=0" ∷ []) ≡ None }
    ensures height { settings_of 32 (codes "--height=20001" ∷ []) ≡ None }
    ensures left { settings_of 32 (codes "--left=20001" ∷ []) ≡ None }
    ensures workers { settings_of 64 (codes "--workers" ∷ codes "33" ∷ []) ≡ None }
    ensures not_at_hand { settings_of 2 (codes "--workers" ∷ codes "3" ∷ []) ≡ None }
    ensures no_worker { settings_of 0 [] ≡ None }
    ensures no_cache { settings_of 32 (codes "--cache=0" ∷ []) ≡ None }
    ensures cache { settings_of 32 (codes "--cache=257" ∷ []) ≡ None }
    ensures room { settings_of 32 (codes "--room=2147483649" ∷ []) ≡ None }
    ensures no_sample { settings_of 32 (codes "--sample=0" ∷ []) ≡ None }
    ensures sample { settings_of 32 (codes "--sample=1001" ∷ []) ≡ None }
{}
