ghost use Rattle.std.specs.Prelude.{◌≡◌, ℕ, List, Some};
ghost use Rattle.sdp_text.specs.Hosts.{host_of, longest_run, text_of};
ghost use Rattle.sdp_text.specs.declared.host.Host.{Host};
ghost use Rattle.sdp_laws.specs.Addresses.{IsAddress, IsLongestRun, family_word};

/// Theorem (no run-time code): the text of an address, behind the word for its family, is read as that address.
pub fn written_host_is_read()
    ensures { (h : Host) → IsAddress h → host_of (family_word h) (text_of h) ≡ Some h }
{}

/// Theorem (no run-time code): the run of groups that is written as `::` has groups of zero alone, no run of them is longer, and of those that are
/// as long it is the first.
pub fn double_colon_is_longest()
    ensures { (groups : List ℕ) → let run = longest_run 0 groups in IsLongestRun groups run.start run.count }
{}
