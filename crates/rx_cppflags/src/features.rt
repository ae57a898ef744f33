//! The ways to compile by which a compiler reads or writes more files, or makes no object.

ghost use Rattle.std.specs.Prelude.{◌≡◌, map, nat_eq};
ghost use Rattle.std.specs.List.{list_any, starts_with};
ghost use Rattle.rx_cppflags.specs.Features.{far_features, is_far};

/// What such words begin with, behind `-f`.
static FAR_FEATURES: [&str; 57] = [
    "apinotes",
    "auto-profile",
    "basic-block-sections=",
    "branch-probabilities",
    "callgraph-info",
    "compare-debug",
    "create-profile",
    "cs-profile",
    "cxx-modules",
    "deps-",
    "diagnostics-add-output",
    "diagnostics-set-output",
    "directives-only",
    "dump-",
    "embed-offload",
    "help",
    "implicit-module",
    "include",
    "input-charset",
    "ltrans",
    "module",
    "ms-compatibility",
    "offload",
    "openmp-targets",
    "optimization-record",
    "pass-plugin",
    "pch",
    "plugin",
    "prebuilt",
    "preprocessed",
    "proc-stat-report",
    "profile",
    "randomize-layout-seed-file",
    "repo",
    "resolution",
    "rewrite-map-file",
    "sanitize-blacklist",
    "sanitize-coverage-allowlist",
    "sanitize-coverage-blacklist",
    "sanitize-coverage-ignorelist",
    "sanitize-coverage-whitelist",
    "sanitize-ignorelist",
    "sanitize-system",
    "save-optimization-record",
    "self-test",
    "syntax-only",
    "system-module",
    "target-help",
    "test-coverage",
    "thin-link-bitcode",
    "thinlto-index",
    "time-trace=",
    "version",
    "wpa",
    "xray-always",
    "xray-attr",
    "xray-never",
];

/// The list of these.
fn far_features() -> &'static [&'static str]
    ensures { map (λ start. start.now) result.now ≡ far_features }
{
    &FAR_FEATURES
}

/// Whether what stands behind `-f` is such.
pub(crate) fn is_far(feature: &str) -> bool
    ensures { result ≡ is_far feature.now }
{
    begins_with_one(feature, far_features())
}

/// Whether a text begins with one of these.
fn begins_with_one(text: &str, starts: &[&str]) -> bool
    ensures { result ≡ list_any (λ start. starts_with nat_eq text.now start)
        (map (λ start. start.now) starts.now) }
{
    for start in starts {
        if text.as_bytes().starts_with(start.as_bytes()) {
            return true;
        }
    }
    false
}
