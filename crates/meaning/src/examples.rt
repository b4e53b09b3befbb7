// Worked examples, computed from the definitions.

ghost use Rattle.std.specs.Prelude.{◌≡◌, ◌≤◌, ◌<◌, ℕ, [], ◌∷◌, pos, negsuc};
ghost use Rattle.meaning.specs.Values.{Int, Named, Val, Trapped, Overflow, DivZero, TooLong, Loop, TooDeep, Put, main_birth};
ghost use Rattle.meaning.specs.Syntax.{Binary, Div, Rem, Unary, Negate};
ghost use Rattle.meaning.specs.Runs.{Needs, Over};
ghost use Rattle.meaning.specs.Meaning.{replay};
ghost use Rattle.meaning.specs.Mains.{KeepsMainApart};
ghost use Rattle.meaning.specs.Examples.{
  MainGives,
  value,
  number,
  least,
  just,
  square,
  sum_of_squares,
  trap_not_got,
  trap_got,
  first_trap,
  deep,
  reference_got,
  reference_passed,
  loop,
  loop_name_set,
  got_twice,
  object,
  squaring,
  prints_elsewhere,
  calls_main,
  bears_main,
  louder,
  this_piece,
  parts_called,
  mixed_called,
  parts_put,
  making_two,
  parting,
  fours,
};

/// What main prints and how it ends where every remote call is a plain call.
pub fn serial_examples()
    ensures square { MainGives square (Int (pos 49) ∷ []) (value 0) }
    ensures sum_of_squares { MainGives sum_of_squares [] (value 30) }
    ensures trap_not_got { MainGives trap_not_got [] (value 5) }
    ensures trap_got { MainGives trap_got [] (Trapped DivZero) }
    ensures not_too_deep { MainGives (deep 31) [] (value 31) }
    ensures too_deep { MainGives (deep 32) [] (Trapped TooDeep) }
    ensures reference_got { MainGives reference_got [] (value 4) }
    ensures reference_passed { MainGives reference_passed [] (value 0) }
    ensures loop_name_set { MainGives loop_name_set [] (value 30) }
    ensures least_by_minus_one { MainGives (just (Binary Div least (Unary Negate (number 1)))) [] (Trapped Overflow) }
    ensures rest_of_least { MainGives (just (Binary Rem least (Unary Negate (number 1)))) [] (Trapped Overflow) }
    ensures division_rounds_to_zero { MainGives (just (Binary Div (Unary Negate (number 7)) (number 2))) [] (Val (Int (negsuc 2))) }
    ensures remainder_of_negative { MainGives (just (Binary Rem (Unary Negate (number 7)) (number 2))) [] (Val (Int (negsuc 0))) }
    ensures remainder_by_negative { MainGives (just (Binary Rem (number 7) (Unary Negate (number 2)))) [] (value 1) }
{}

/// Lists and loops within their limits and past them, of any length.
pub fn limit_examples()
    ensures full_list { (n : ℕ) → n ≤ 4096 → MainGives (first_trap n) [] (Trapped DivZero) }
    ensures too_long_list { (n : ℕ) → 4096 < n → n ≤ 10000 → MainGives (first_trap n) [] (Trapped TooLong) }
    ensures long_loop { (n : ℕ) → n ≤ 10000 → MainGives (loop n) [] (value n) }
    ensures too_long_loop { (n : ℕ) → 10000 < n → MainGives (loop n) [] (Trapped Loop) }
{}

/// What a task does on the answers that it has.
pub fn replay_examples()
    ensures first_piece_of_main { replay square main_birth (object 1 1) [] ≡ this_piece (squaring ∷ []) [] (Needs (Named (object 1 1))) }
    ensures piece_of_the_call { replay square squaring (object 2 1) [] ≡ this_piece [] [] (Over (value 49 ∷ [])) }
    ensures whole_of_main { replay square main_birth (object 1 1) (value 49 ∷ []) ≡ this_piece (squaring ∷ []) (Int (pos 49) ∷ []) (Over (value 0 ∷ [])) }
    ensures got_once { replay got_twice main_birth (object 1 1) (value 1 ∷ []) ≡ this_piece (Put (Int (pos 1)) ∷ []) [] (Needs (Named (object 1 1))) }
    ensures got_again { replay got_twice main_birth (object 1 1) (value 1 ∷ value 1 ∷ []) ≡ this_piece (Put (Int (pos 1)) ∷ []) [] (Over (value 2 ∷ [])) }
{}

/// Which scripts keep main apart, and that a task prints in one that doesn't.
pub fn main_examples()
    ensures apart { KeepsMainApart square }
    ensures another_prints { KeepsMainApart prints_elsewhere → ⊥ }
    ensures main_is_called { KeepsMainApart calls_main → ⊥ }
    ensures main_is_born { KeepsMainApart bears_main → ⊥ }
    ensures another_task_prints { replay prints_elsewhere louder (object 2 1) [] ≡ this_piece [] (Int (pos 1) ∷ []) (Over (value 2 ∷ [])) }
{}

/// Calls of functions of several results: each result has its outcome, and a trap is the outcome of each.
pub fn several_examples()
    ensures two_bound { MainGives (parts_called 17 5) [] (value 32) }
    ensures trap_on_the_way { MainGives (parts_called 1 0) [] (Trapped DivZero) }
    ensures four_bound { MainGives (mixed_called 4) (Int (pos 8) ∷ []) (value 9) }
    ensures bound_before_a_get { replay parts_put main_birth (object 1 1) [] ≡ this_piece (Put (Int (pos 3)) ∷ []) [] (Needs (Named (object 1 1))) }
    ensures bound_after_a_get { replay parts_put main_birth (object 1 1) (value 3 ∷ []) ≡ this_piece (Put (Int (pos 3)) ∷ []) [] (Over (value 32 ∷ [])) }
    ensures two_results { replay (mixed_called 4) making_two (object 2 1) [] ≡ this_piece [] [] (Over (value 5 ∷ fours ∷ [])) }
    ensures a_trap_is_each { replay (parts_called 1 0) (parting 1 0) (object 2 1) [] ≡
        this_piece [] [] (Over (Trapped DivZero ∷ Trapped DivZero ∷ [])) }
{}
