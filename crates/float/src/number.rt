// The magnitude of a number, and the lesser and the greater of two (scalar_min and scalar_max of mesh_pipeline.rs).
ghost use Rattle.std.specs.Prelude.{◌≡◌};
ghost use Rattle.float.specs.Number.{abs, scalar_min, scalar_max};

// −0 stays −0, by the definition, where the library's gives 0.
pub fn abs(x: f64) -> f64
    ensures { result ≡ abs x }
{
    if x < 0.0 { -x } else { x }
}

// One comparison each, under the original's names; with the comparison as a parameter they would be no shorter. What they give of two zeros and of a NaN is the original's, not the library's.
pub fn scalar_min(a: f64, b: f64) -> f64
    ensures { result ≡ scalar_min a b }
{
    if b < a { b } else { a }
}

pub fn scalar_max(a: f64, b: f64) -> f64
    ensures { result ≡ scalar_max a b }
{
    if a < b { b } else { a }
}
